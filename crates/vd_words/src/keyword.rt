//! The first word of a line, looked up by a sum of its letters.

ghost use Rattle.std.specs.Prelude.{◌≡◌, ◌<◌, ◌≤◌, if◌then◌else◌, Some, None, length};
ghost use Rattle.std.specs.Str.{bytes_eq};
ghost use Rattle.vd_model.specs.Reading.{keyword};
ghost use Rattle.vd_words.specs.Keywords.{keyword_text, candidate, place, letter_sum};

use vd_model::{AreaWord, BusWord, ControlWord, DriverWord, Keyword, NodeWord, QueueWord};

/// All first words, by their length.
static FIRST_WORDS: [Keyword; 73] = [
    Keyword::Driver(DriverWord::Map),
    Keyword::Driver(DriverWord::Buf),
    Keyword::Queue(QueueWord::Add),
    Keyword::Node(NodeWord::Irq),
    Keyword::Control(ControlWord::Dev),
    Keyword::Area(AreaWord::Load),
    Keyword::Driver(DriverWord::Peek),
    Keyword::Driver(DriverWord::Poke),
    Keyword::Driver(DriverWord::Cput),
    Keyword::Driver(DriverWord::Cget),
    Keyword::Driver(DriverWord::Free),
    Keyword::Area(AreaWord::Area),
    Keyword::Queue(QueueWord::Poll),
    Keyword::Queue(QueueWord::Walk),
    Keyword::Queue(QueueWord::Ring),
    Keyword::Node(NodeWord::Recv),
    Keyword::Node(NodeWord::Open),
    Keyword::Node(NodeWord::Read),
    Keyword::Bus(BusWord::Kick),
    Keyword::Bus(BusWord::Irqs),
    Keyword::Bus(BusWord::Take),
    Keyword::Control(ControlWord::Tick),
    Keyword::Driver(DriverWord::Unmap),
    Keyword::Area(AreaWord::Store),
    Keyword::Driver(DriverWord::Zeros),
    Keyword::Queue(QueueWord::Fetch),
    Keyword::Node(NodeWord::Kicks),
    Keyword::Node(NodeWord::Close),
    Keyword::Node(NodeWord::Write),
    Keyword::Node(NodeWord::Ioctl),
    Keyword::Bus(BusWord::Reset),
    Keyword::Bus(BusWord::VqNum),
    Keyword::Control(ControlWord::Image),
    Keyword::Area(AreaWord::Lookup),
    Keyword::Queue(QueueWord::Submit),
    Keyword::Queue(QueueWord::Finish),
    Keyword::Queue(QueueWord::Unring),
    Keyword::Node(NodeWord::Answer),
    Keyword::Node(NodeWord::VqInfo),
    Keyword::Node(NodeWord::KickFd),
    Keyword::Bus(BusWord::Attach),
    Keyword::Bus(BusWord::Detach),
    Keyword::Bus(BusWord::VqAddr),
    Keyword::Control(ControlWord::Create),
    Keyword::Driver(DriverWord::SyncDev),
    Keyword::Driver(DriverWord::SyncCpu),
    Keyword::Area(AreaWord::AreaPut),
    Keyword::Area(AreaWord::AreaGet),
    Keyword::Area(AreaWord::RegUmem),
    Keyword::Queue(QueueWord::Execute),
    Keyword::Queue(QueueWord::Publish),
    Keyword::Node(NodeWord::VqSetup),
    Keyword::Bus(BusWord::Offered),
    Keyword::Bus(BusWord::VqReady),
    Keyword::Bus(BusWord::Timeout),
    Keyword::Control(ControlWord::Destroy),
    Keyword::Control(ControlWord::Control),
    Keyword::Control(ControlWord::Version),
    Keyword::Driver(DriverWord::Coherent),
    Keyword::Area(AreaWord::IovaInfo),
    Keyword::Node(NodeWord::Features),
    Keyword::Bus(BusWord::Callback),
    Keyword::Area(AreaWord::DeregUmem),
    Keyword::Node(NodeWord::SetConfig),
    Keyword::Node(NodeWord::ConfigIrq),
    Keyword::Bus(BusWord::SetStatus),
    Keyword::Bus(BusWord::GetStatus),
    Keyword::Bus(BusWord::GetConfig),
    Keyword::Bus(BusWord::SetVqState),
    Keyword::Bus(BusWord::GetVqState),
    Keyword::Control(ControlWord::SetVersion),
    Keyword::Bus(BusWord::SetFeatures),
    Keyword::Driver(DriverWord::FreeCoherent),
];

/// For the sum of a first word's letters, where the word stands in `FIRST_WORDS`. No two first words
/// have the same sum; a sum that none of them has says any place.
static PLACES: [u8; 256] = [
    72, 0, 0, 0, 0, 0, 0, 0, 0, 0, 0, 20, 0, 0, 0, 40, 0, 0, 0, 0, 47, 0, 0, 35, 0, 17, 0, 0, 0, 0,
    0, 34, 0, 0, 0, 0, 0, 0, 0, 0, 28, 0, 14, 0, 0, 0, 22, 59, 0, 0, 0, 0, 46, 0, 0, 0, 71, 0, 0,
    0, 0, 16, 0, 41, 52, 0, 0, 15, 61, 0, 0, 2, 63, 0, 0, 0, 0, 6, 0, 0, 13, 43, 0, 0, 0, 0, 23, 0,
    27, 0, 44, 0, 38, 11, 0, 0, 0, 0, 0, 21, 0, 0, 0, 0, 0, 0, 0, 0, 0, 0, 0, 0, 45, 0, 0, 39, 0,
    0, 0, 0, 30, 31, 0, 0, 0, 9, 0, 0, 0, 0, 0, 0, 0, 0, 0, 0, 67, 0, 58, 0, 4, 0, 70, 0, 0, 0, 0,
    0, 0, 0, 32, 0, 49, 0, 42, 0, 0, 0, 0, 0, 48, 33, 0, 0, 0, 0, 0, 0, 0, 0, 0, 68, 0, 10, 53, 0,
    54, 56, 0, 0, 0, 37, 0, 0, 62, 5, 0, 0, 1, 0, 0, 65, 0, 55, 0, 0, 0, 0, 0, 25, 0, 0, 0, 7, 0,
    8, 57, 0, 51, 0, 0, 18, 0, 0, 29, 0, 0, 19, 0, 0, 0, 0, 0, 0, 12, 60, 0, 0, 26, 0, 0, 0, 64, 0,
    0, 69, 0, 3, 0, 0, 0, 50, 0, 0, 0, 0, 0, 0, 0, 24, 0, 0, 0, 36, 0, 66,
];

/// A sum of three letters of a word and of its length, that tells each first word from the others.
fn letter_sum(word: &[u8]) -> usize
    requires { (3 ≤ length word.now) × (length word.now ≤ 12) }
    ensures sum { result ≡ letter_sum word.now }
    ensures small { result < 256 }
{
    let first = word[0] as usize;
    let middle = word[word.len() / 2] as usize;
    let last_but_one = word[word.len() - 2] as usize;
    (16 * first + 19 * middle + 2 * last_but_one + word.len()) % 256
}

/// Where the only first word stands that may be written so.
fn place_of(word: &[u8]) -> usize
    requires { (3 ≤ length word.now) × (length word.now ≤ 12) }
    ensures place { result ≡ place word.now }
    ensures small { result < 73 }
{
    PLACES[letter_sum(word)] as usize
}

/// The only first word that may be written so.
fn candidate(word: &[u8]) -> Keyword
    requires { (3 ≤ length word.now) × (length word.now ≤ 12) }
    ensures { result ≡ candidate word.now }
{
    FIRST_WORDS[place_of(word)]
}

/// The word as it is written.
fn text_of(keyword: Keyword) -> &'static [u8]
    ensures { result.now ≡ keyword_text keyword }
{
    match keyword {
        Keyword::Control(word) => word.text(),
        Keyword::Node(word) => word.text(),
        Keyword::Area(word) => word.text(),
        Keyword::Bus(word) => word.text(),
        Keyword::Driver(word) => word.text(),
        Keyword::Queue(word) => word.text(),
    }
}

/// This first word, where it is written so.
fn if_written_so(word: &[u8], found: Keyword) -> Option<Keyword>
    ensures { result ≡ (if bytes_eq word.now (keyword_text found) then Some found else None) }
{
    if word == text_of(found) {
        Some(found)
    } else {
        None
    }
}

/// The first word that is written so.
pub fn keyword_of(word: &[u8]) -> Option<Keyword>
    ensures { result ≡ keyword word.now }
{
    if word.len() < 3 || word.len() > 12 {
        return None;
    }
    if_written_so(word, candidate(word))
}
