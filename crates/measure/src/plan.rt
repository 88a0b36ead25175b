//! The run to measure, and its size.

/// The usage message. A number in parentheses is the maximum of N.
pub const WORDS: &str =
    "measure full N (1048576 at most) | nops N | transfers N | issues N | polls N | links N | drains N | cancels N | distinct N | shared N | held N | released N | counts N | meets N | cascade N | met N | severed N (65334)";

/// The maximum number of events in a trace.
const MOST_EVENTS: u32 = 1048576;

/// The maximum number of requests, in addition to the 100 that complete. Each needs an instruction
/// of the 16 programs, at most 102 of which are Puts.
const MOST_ROWS: u32 = 65334;

/// The run to measure. N is its size.
#[derive(Clone, Copy)]
pub enum Word {
    /// N events over 32 files of 65,536 bytes: 65,535 NOPs are submitted, and then the clock
    /// advances. The run jumps between moments.
    Full,
    /// N events of NOPs, each pushed, taken, issued, finished and reaped.
    Nops,
    /// The same with READs and WRITEs, each of which changes 4,096 bytes.
    Transfers,
    /// N NOPs. Half of them complete one after the other, before the others are issued.
    Issues,
    /// The same with POLL_ADDs of an eventfd that has 64 descriptors.
    Polls,
    /// The same with NOPs in chains as long as a batch.
    Links,
    /// The same with NOPs that have IOSQE_IO_DRAIN.
    Drains,
    /// 100 cancels with N issued requests. Each finds the last request, which is running.
    Cancels,
    /// The same, but the other requests have 4,000 different user_data.
    Distinct,
    /// 100 cancels with N issued requests, all with one user_data. Each cancels the first.
    Shared,
    /// 100 cancels by descriptor with N issued requests. Each finds the last, which is running.
    Held,
    /// The same, but the other requests held the same descriptor, and have completed.
    Released,
    /// 100 NOPs that complete while N TIMEOUTs wait for a number of completions that isn't reached.
    Counts,
    /// The same, but each NOP completes one TIMEOUT.
    Meets,
    /// A cancel that completes N requests in one step.
    Cascade,
    /// A NOP that completes N TIMEOUTs in one step.
    Met,
    /// A cancel that completes N requests in one step: the first of each chain, and with it the
    /// rest.
    Severed,
}

/// A run to measure.
#[derive(Clone, Copy)]
pub struct Plan {
    pub word: Word,
    pub size: u32,
}

impl Plan {
    /// Returns how many of the last events are walked forward and back, and how often. Returns
    /// `None` for a run that jumps.
    pub fn rounds(self) -> Option<(usize, usize)> {
        match self.word {
            Word::Full => None,
            Word::Nops | Word::Transfers => Some((self.size as usize, 1)),
            Word::Cascade | Word::Met | Word::Severed => Some((1, 20)),
            Word::Cancels | Word::Distinct | Word::Shared | Word::Held => Some((100, 200)),
            Word::Released | Word::Counts | Word::Meets => Some((100, 200)),
            _ => Some((200, 200)),
        }
    }
}

fn word_of(name: &str) -> Option<Word> {
    Some(match name {
        "full" => Word::Full,
        "nops" => Word::Nops,
        "transfers" => Word::Transfers,
        "issues" => Word::Issues,
        "polls" => Word::Polls,
        "links" => Word::Links,
        "drains" => Word::Drains,
        "cancels" => Word::Cancels,
        "distinct" => Word::Distinct,
        "shared" => Word::Shared,
        "held" => Word::Held,
        "released" => Word::Released,
        "counts" => Word::Counts,
        "meets" => Word::Meets,
        "cascade" => Word::Cascade,
        "met" => Word::Met,
        "severed" => Word::Severed,
        _ => return None,
    })
}

/// Parses the arguments, the first of which is the program's name.
pub fn plan_of(words: &[String]) -> Option<Plan> {
    let [_, name, size] = words else {
        return None;
    };
    let word = word_of(name.as_str())?;
    let size = size.as_str().parse::<u32>().ok()?;
    let most = match word {
        Word::Full => MOST_EVENTS,
        _ => MOST_ROWS,
    };
    (size <= most).then_some(Plan { word, size })
}
