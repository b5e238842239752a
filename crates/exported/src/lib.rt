// The library for C: the search, the reader of DIMACS files, the replies to a typed text and to a file, the writer of WCNF text, and the
// list of the least plans.
//
// C has no value with cases, so the answer goes into an array: the code, then what is returned, in the table's order. Every plain
// name of the archive begins with the library's.
#![tactic(auto)]

ghost use Rattle.std.specs.Prelude.{◌≡◌, ◌≤◌, length};
ghost use Rattle.lists.specs.Lists.{in_front};
ghost use Rattle.exported.specs.Exported.{edition_of, Searches, ReadsFile, WritesText, ListsPlans};
ghost use Rattle.reply.specs.Contract.{Replies, RepliesFile};

use search::Answer;
use tied::Tied;
use wcnf::Edition;

// The numbers of an answer go to the front of the array; what lies behind them stays. `refusals` has such a function for the few numbers of
// a refusal: one for both would be public and would have to require that they fit.
fn tell(told: &[u64], numbers: &mut [u64])
    requires { length told.now ≤ length numbers.old }
    ensures { numbers.new ≡ in_front told.now numbers.old }
{
    numbers[..told.len()].copy_from_slice(told);
}

// 01, "The answer sheet of the search", with 02, requests 1 and 3: the least plan of a sheet, under a budget of trial plans; its marks
// go to the front of the room, its numbers to `numbers`.
#[unsafe(no_mangle)]
pub extern "C" fn leastplan_search(
    words: &[i32],
    budget: u32,
    room: &mut [u8],
    numbers: &mut [u64; 4],
)
    ensures { Searches words.now budget room.old numbers.old room.new numbers.new }
{
    match search::least_plan(words, budget, room) {
        Ok(Answer::Least { cost, held, opened }) => {
            tell(&[0, cost, u64::from(held), u64::from(opened)], numbers);
        }
        Ok(Answer::None(opened)) => tell(&[1, u64::from(opened)], numbers),
        Ok(Answer::Spent(opened)) => tell(&[2, u64::from(opened)], numbers),
        Err(refused) => {
            refused.tell(numbers);
        }
    }
}

// 01, "What leastplan prints": what is printed for a typed text goes to the front of the room; its length is returned.
#[unsafe(no_mangle)]
pub extern "C" fn leastplan_answer(text: &[u8], out: &mut [u8; 1024]) -> usize
    ensures { Replies text.now out.old result out.new }
{
    reply::answer(text, out)
}

// 02, request 2: the sheet of a DIMACS file goes to the front of the room; 0 and its length, or the numbers of the refusal, to `numbers`.
#[unsafe(no_mangle)]
pub extern "C" fn leastplan_cnf_read(text: &[u8], room: &mut [i32], numbers: &mut [u64; 4])
    ensures { ReadsFile text.now room.old numbers.old room.new numbers.new }
{
    match dimacs::read(text, room) {
        Ok(count) => tell(&[0, count as u64], numbers),
        Err(flaw) => {
            flaw.tell(numbers);
        }
    }
}

// 02, request 2: what is printed for a DIMACS file goes to the front of the room; its length is returned.
#[unsafe(no_mangle)]
pub extern "C" fn leastplan_cnf_answer(text: &[u8], out: &mut [u8; 1024]) -> usize
    ensures { RepliesFile text.now out.old result out.new }
{
    reply::answer_file(text, out)
}

// Which edition a number asks for. No `From`: the numbers are the C interface's, and the type is `wcnf`'s.
fn edition_of(number: u32) -> Edition
    ensures { result ≡ edition_of number }
{
    if number == 0 {
        Edition::Since2022
    } else {
        Edition::Before2022
    }
}

// 02, request 4: the WCNF text of a sheet goes to the front of the room, in the edition from 2022 for 0, else in the one before; 0 and its
// length, or the numbers of the refusal, to `numbers`.
#[unsafe(no_mangle)]
pub extern "C" fn leastplan_wcnf_write(
    words: &[i32],
    edition: u32,
    text: &mut [u8],
    numbers: &mut [u64; 4],
)
    ensures { WritesText words.now edition text.old numbers.old text.new numbers.new }
{
    match wcnf::write(words, edition_of(edition), text) {
        Ok(size) => tell(&[0, size as u64], numbers),
        Err(obstacle) => {
            obstacle.tell(numbers);
        }
    }
}

// 02, request 5: all plans that equal the least one of a sheet in cost and held number go to the front of the room, best first; their
// numbers to `numbers`. Those of a refusal come by way of an array of their own, which is shorter.
#[unsafe(no_mangle)]
pub extern "C" fn leastplan_ties(
    words: &[i32],
    budget: u32,
    room: &mut [u8],
    numbers: &mut [u64; 5],
)
    ensures { ListsPlans words.now budget room.old numbers.old room.new numbers.new }
{
    match tied::least_plans(words, budget, room) {
        Ok(
            Tied::Plans {
                cost,
                held,
                number,
                opened,
            },
        ) => {
            tell(
                &[
                    0,
                    cost,
                    u64::from(held),
                    u64::from(number),
                    u64::from(opened),
                ],
                numbers,
            );
        }
        Ok(Tied::None(opened)) => tell(&[1, u64::from(opened)], numbers),
        Ok(Tied::Spent(opened)) => tell(&[2, u64::from(opened)], numbers),
        Err(hindrance) => {
            let mut told = [0; 4];
            let count = hindrance.tell(&mut told);
            tell(&told[..count], numbers);
        }
    }
}
