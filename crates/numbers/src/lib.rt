// The numbers given back, by name, and the answer that carries one; specs/Numbers says when each is given.
#![tactic(auto)]

ghost use Rattle.std.specs.Prelude.{◌≡◌};
ghost use Rattle.numbers.specs.Numbers.{refused, done, judged};
ghost use Rattle.numbers.specs.Refusals.{number_of, answer_of};

// The numbers of the table, one by one; From gives a Refused its own.
pub const DONE: u32 = 0;

pub const NO_MESSAGE: u32 = 1;

pub const OTHER_ROOT: u32 = 2;

pub const RULE_BROKEN: u32 = 3;

pub const WRONG_SIZE: u32 = 4;

pub const WRONG_PADDING: u32 = 5;

pub const NO_ANCHOR: u32 = 6;

pub const DIFFERS: u32 = 7;

pub const CONFLICT: u32 = 8;

pub const UNUSABLE: u32 = 9;

pub const FACTS_OUT_OF_RANGE: u32 = 10;

pub const NO_ROOM: u32 = 11;

pub const NOT_HELD: u32 = 12;

pub const TORRENT_TOO_LARGE: u32 = 19;

pub const NOT_STRICT: u32 = 20;

pub const NESTED_TOO_DEEPLY: u32 = 21;

pub const KEY_MISSING: u32 = 22;

pub const OTHER_VERSION: u32 = 23;

pub const PIECE_LENGTH_OUT_OF_RANGE: u32 = 24;

pub const WRONG_TREE: u32 = 25;

pub const TWO_LENGTHS: u32 = 26;

pub const LAYERS_AMISS: u32 = 27;

pub const LAYER_DIFFERS: u32 = 28;

pub const NO_SUCH_PART: u32 = 29;

pub const FRAME_TOO_LONG: u32 = 30;

pub const HALVES_DIFFER: u32 = 31;

pub const NOT_SAVED: u32 = 32;

// A number, and beside it the count of newly held positions or the reply's size: what the definitions of all calls speak of. From makes it.
#[derive(Clone, Copy)]
pub struct Answer {
    pub number: u32,
    pub count: u64,
}

// Why a call is refused: each number of the table but 0, by name. Inside, a call that may be refused gives a Result with it; its number,
// and the zero count beside it, are made at the boundary by From.
#[derive(Clone, Copy, Debug, PartialEq, Eq)]
pub enum Refused {
    NoMessage,
    OtherRoot,
    RuleBroken,
    WrongSize,
    WrongPadding,
    NoAnchor,
    Differs,
    Conflict,
    Unusable,
    FactsOutOfRange,
    NoRoom,
    NotHeld,
    TorrentTooLarge,
    NotStrict,
    NestedTooDeeply,
    KeyMissing,
    OtherVersion,
    PieceLengthOutOfRange,
    WrongTree,
    TwoLengths,
    LayersAmiss,
    LayerDiffers,
    NoSuchPart,
    FrameTooLong,
    HalvesDiffer,
    NotSaved,
}

impl From<Refused> for u32 {
    ghost from_gives = { λ why n. n ≡ number_of why };

    fn from(why: Refused) -> u32 {
        match why {
            Refused::NoMessage => NO_MESSAGE,
            Refused::OtherRoot => OTHER_ROOT,
            Refused::RuleBroken => RULE_BROKEN,
            Refused::WrongSize => WRONG_SIZE,
            Refused::WrongPadding => WRONG_PADDING,
            Refused::NoAnchor => NO_ANCHOR,
            Refused::Differs => DIFFERS,
            Refused::Conflict => CONFLICT,
            Refused::Unusable => UNUSABLE,
            Refused::FactsOutOfRange => FACTS_OUT_OF_RANGE,
            Refused::NoRoom => NO_ROOM,
            Refused::NotHeld => NOT_HELD,
            Refused::TorrentTooLarge => TORRENT_TOO_LARGE,
            Refused::NotStrict => NOT_STRICT,
            Refused::NestedTooDeeply => NESTED_TOO_DEEPLY,
            Refused::KeyMissing => KEY_MISSING,
            Refused::OtherVersion => OTHER_VERSION,
            Refused::PieceLengthOutOfRange => PIECE_LENGTH_OUT_OF_RANGE,
            Refused::WrongTree => WRONG_TREE,
            Refused::TwoLengths => TWO_LENGTHS,
            Refused::LayersAmiss => LAYERS_AMISS,
            Refused::LayerDiffers => LAYER_DIFFERS,
            Refused::NoSuchPart => NO_SUCH_PART,
            Refused::FrameTooLong => FRAME_TOO_LONG,
            Refused::HalvesDiffer => HALVES_DIFFER,
            Refused::NotSaved => NOT_SAVED,
        }
    }
}

impl From<Result<u64, Refused>> for Answer {
    ghost from_gives = { λ outcome answer. answer ≡ answer_of outcome };

    fn from(outcome: Result<u64, Refused>) -> Answer {
        match outcome {
            Ok(count) => success(count),
            Err(why) => refusal(u32::from(why)),
        }
    }
}

// Beside a refusal the count is zero.
pub fn refusal(number: u32) -> Answer
    ensures { result ≡ refused number }
{
    Answer { number, count: 0 }
}

pub fn success(count: u64) -> Answer
    ensures { result ≡ done count }
{
    Answer {
        number: DONE,
        count,
    }
}

// 6, 7, 8 or 0 by the three tests: the anchor held, as worked out, no held hash different.
pub fn judged_number(held: bool, alike: bool, all: bool) -> u32
    ensures { result ≡ judged held alike all }
{
    if held {
        if alike {
            if all {
                return DONE;
            }
            return CONFLICT;
        }
        return DIFFERS;
    }
    NO_ANCHOR
}
