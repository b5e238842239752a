// The refusals of a hall sheet: 01, "The answer sheet of the search"; 02, request 1. Codes 11 to 19.
//
// What all readers have in common: the kinds of refusal of a sheet; what is refused, and where (`Refused`); the numbers of a refusal, of
// whichever reader, put in front of a lent array (`Kind`); the kinds of those that fill a room besides (`RoomRefusal`); and a word with its
// sign split off (`Split`), so that all else is unsigned.
#![tactic(auto)]

ghost use Rattle.std.specs.Prelude.{◌≡◌, List, ℕ, [], ◌∷◌, ◌≤◌, length};
ghost use Rattle.refusals.specs.Contract.{Tells};

// The kinds of refusal, in the order of their codes. A width's has the number of its rule, from 1.
#[derive(Clone, Copy, PartialEq, Eq)]
pub enum Refusal {
    TooShort,
    BadDeviceCount,
    BadCost,
    BadEntry,
    ExtraWords,
    SmallRoom,
    TooLong,
    BadRuleCount,
    BadWidth(usize),
}

// A kind of refusal, of whichever reader.
pub trait Kind {
    // The paper's numbers of a refusal of this kind at a place: its code, the place and, for a width, the number of its rule.
    ghost told: { Self → ℕ → List ℕ };

    // They go to the front of the array. How many they are is returned: C is lent such an array, and there is no heap for a list.
    fn tell(self, place: usize, numbers: &mut [u64; 4]) -> usize
        ensures { Tells (told self place) numbers.old result numbers.new };
}

// What is refused, and where: a kind of refusal and its place.
#[derive(Clone, Copy, PartialEq, Eq)]
pub struct Refused<K> {
    pub kind: K,
    pub place: usize,
}

impl<K> Refused<K> {
    // The same refusal among the kinds of a reader above: at the same place.
    pub fn under<L: From<K>>(self) -> Refused<L>
        ensures place { result.place ≡ self.place }
        ensures kind { L.from_gives self.kind result.kind }
    {
        Refused {
            kind: L::from(self.kind),
            place: self.place,
        }
    }
}

impl<K: Kind> Refused<K> {
    // The paper's numbers of it go to the front of the array. How many they are is returned.
    pub fn tell(self, numbers: &mut [u64; 4]) -> usize
        ensures { Tells (K.told self.kind self.place) numbers.old result numbers.new }
    {
        self.kind.tell(self.place, numbers)
    }
}

// Numbers go to the front of the array. How many they are is returned.
fn put(told: &[u64], numbers: &mut [u64]) -> usize
    requires few { length told.now ≤ 3 }
    requires room { 3 ≤ length numbers.old }
    ensures { Tells told.now numbers.old result numbers.new }
{
    numbers[..told.len()].copy_from_slice(told);
    told.len()
}

impl Kind for Refusal {
    ghost use Rattle.refusals.specs.Contract.{numbers_at};

    ghost told = { numbers_at };

    fn tell(self, place: usize, numbers: &mut [u64; 4]) -> usize {
        match self {
            Refusal::TooShort => tell_code(11, place, numbers),
            Refusal::BadDeviceCount => tell_code(12, place, numbers),
            Refusal::BadCost => tell_code(13, place, numbers),
            Refusal::BadEntry => tell_code(14, place, numbers),
            Refusal::ExtraWords => tell_code(15, place, numbers),
            Refusal::SmallRoom => tell_code(16, place, numbers),
            Refusal::TooLong => tell_code(17, place, numbers),
            Refusal::BadRuleCount => tell_code(18, place, numbers),
            Refusal::BadWidth(rule) => put(&[19, place as u64, rule as u64], numbers),
        }
    }
}

// The numbers of a refusal that has a code and a place alone.
pub fn tell_code(code: u64, place: usize, numbers: &mut [u64; 4]) -> usize
    ensures { Tells (code ∷ place ∷ []) numbers.old result numbers.new }
{
    put(&[code, place as u64], numbers)
}

// The kinds of refusal where a sheet's answer goes into a lent room: those of the sheet; or the room is too short, which has this code.
#[derive(Clone, Copy, PartialEq, Eq)]
pub enum RoomRefusal<const CODE: u64> {
    BadSheet(Refusal),
    ShortRoom,
}

impl<const CODE: u64> From<Refusal> for RoomRefusal<CODE> {
    ghost use Rattle.refusals.specs.declared.RoomRefusal.TheVariants.{BadSheet};

    ghost from_gives = { λ kind wider. wider ≡ BadSheet kind };

    fn from(kind: Refusal) -> RoomRefusal<CODE> {
        RoomRefusal::BadSheet(kind)
    }
}

impl<const CODE: u64> Kind for RoomRefusal<CODE> {
    ghost use Rattle.refusals.specs.Rooms.{numbers_of};

    ghost told = { numbers_of };

    fn tell(self, place: usize, numbers: &mut [u64; 4]) -> usize {
        match self {
            RoomRefusal::BadSheet(kind) => kind.tell(place, numbers),
            RoomRefusal::ShortRoom => tell_code(CODE, place, numbers),
        }
    }
}

// A word with its sign split off: Up(n) is n, Down(k) is -(k + 1).
#[derive(Clone, Copy, PartialEq, Eq)]
pub enum Split {
    Up(u32),
    Down(u32),
}

// A word of a sheet or of a file. It alone touches a signed number; what it gives is unsigned.
impl From<i32> for Split {
    ghost use Rattle.refusals.specs.Word.{split_of};

    ghost from_gives = { λ word split. split ≡ split_of word };

    fn from(word: i32) -> Split {
        if word < 0 {
            Split::Down((-(word + 1)) as u32)
        } else {
            Split::Up(word as u32)
        }
    }
}
