// What `leastplan` and `cnfplan` print, as bytes in a lent room; and the whole way to them, from a typed text and from a DIMACS file.
// 01, "What leastplan prints"; 02, requests 1 to 3.
//
// `printing` puts the lines: that of the held devices, and every other, which is a word and its numbers.
#![tactic(auto)]

ghost use Rattle.std.specs.Prelude.{Ok};
ghost use Rattle.reply.specs.Contract.{PutsAnswer, Prints, Searched, Replies, RepliesFile};

use printing::{Page, print_refused};
use refusals::{Refusal, Refused};
use search::Answer;

// The lines of an answer that is no refusal.
fn put_answer(answer: Answer, plan: &[u8; 200], page: &mut Page<'_>)
    ensures { PutsAnswer (Ok answer) plan.now page.old page.new }
{
    match answer {
        Answer::Least { cost, held, opened } => {
            page.put_line(b"least", &[cost, u64::from(held), u64::from(opened)]);
            page.put_hold(plan);
        }
        Answer::None(opened) => page.put_line(b"none", &[u64::from(opened)]),
        Answer::Spent(opened) => page.put_line(b"spent", &[u64::from(opened)]),
    }
}

// The lines of an answer, with the devices that the plan holds; a mark other than 1 and 2 holds nothing.
pub fn print_answer(
    answer: Result<Answer, Refused<Refusal>>,
    plan: &[u8; 200],
    out: &mut [u8; 1024],
) -> usize
    ensures { Prints answer plan.now out.old result out.new }
{
    let mut page = Page { room: out, at: 0 };
    match answer {
        Ok(found) => put_answer(found, plan, &mut page),
        Err(refused) => page.put_refused(refused),
    }
    page.at
}

// Behind either reader: the least plan of a sheet is searched, and the answer is printed.
fn searched(words: &[i32], out: &mut [u8; 1024]) -> usize
    ensures { Searched words.now out.old result out.new }
{
    let mut plan = rooms::plan_room();
    let found = search::least_plan(words, 1000000, &mut plan);
    print_answer(found, &plan, out)
}

// The whole way: the text is read into words, the least plan of their sheet is searched, and the answer is printed. `answer_file` has
// another reader and another kind of refusal: one function over both would have to say of any reader what the two contracts say of theirs.
pub fn answer(text: &[u8], out: &mut [u8; 1024]) -> usize
    ensures { Replies text.now out.old result out.new }
{
    let mut words = rooms::words_room();
    match typed::read(text, &mut words) {
        Ok(count) => searched(&words[0..count], out),
        Err(mistaken) => print_refused(mistaken, out),
    }
}

// The same for a DIMACS file: it is read into words, and their sheet is searched.
pub fn answer_file(text: &[u8], out: &mut [u8; 1024]) -> usize
    ensures { RepliesFile text.now out.old result out.new }
{
    let mut words = rooms::words_room();
    match dimacs::read(text, &mut words) {
        Ok(length) => searched(&words[0..length], out),
        Err(flawed) => print_refused(flawed, out),
    }
}
