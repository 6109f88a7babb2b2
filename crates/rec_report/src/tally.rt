//! How many commands the mutators were answered, and in which ways.

ghost use Rattle.std.specs.Prelude.{◌≡◌, ◌≢◌, ℕ, ◌+◌, ◌*◌, ◌<◌, ◌≤◌, ◌^◌, map, length, slice_index_or};
ghost use Rattle.std.specs.List.{All};
ghost use Rattle.rec_model.specs.declared.answer.Answer.TheVariants.{LogFull};
ghost use Rattle.rec_model.specs.LegalOrder.{NoLogFull};
ghost use Rattle.rec_report.specs.Summary.{answers_at, commands_of as sum_of, own_answers, place_of};

use rec_model::{Answer, Cmd, Told};
use rec_world::Journal;

/// How many places answers have in a summary.
pub(super) const PLACES: usize = 11;

/// The place of an answer in a summary.
fn place(answer: Answer) -> usize
    requires { answer ≢ LogFull }
    ensures place { result ≡ place_of answer }
    ensures within { result < 11 }
{
    match answer {
        Answer::Done => 0,
        Answer::Null => 1,
        Answer::Object => 2,
        Answer::Value(_) => 3,
        Answer::Yes => 4,
        Answer::No => 5,
        Answer::NoObject => 6,
        Answer::Full => 7,
        Answer::Busy { .. } => 8,
        Answer::NoField => 9,
        Answer::NotYet => 10,
        // The summary is asked for where no log was full.
        Answer::LogFull => unreachable!(),
    }
}

// Counts the answers of one journal on.
fn count_answers(counts: &mut [u64; PLACES], journal: &[(Cmd, Told)])
    requires few { (at : ℕ) → at < 11 → slice_index_or counts.old at 0 ≤ 62 * 2 ^ 58 }
    requires room { All (λ line. line.1.answer ≢ LogFull) journal.now }
    ensures counted { (at : ℕ) → at < 11 → slice_index_or counts.new at 0 ≡ slice_index_or counts.old at 0 + own_answers at journal.now }
    ensures few { (at : ℕ) → at < 11 → slice_index_or counts.new at 0 ≤ slice_index_or counts.old at 0 + 2 ^ 58 }
{
    for line in journal {
        counts[place(line.1.answer)] += 1;
    }
}

/// How many answers have each place.
pub(super) fn tally(journals: &[Journal]) -> [u64; PLACES]
    requires few { length journals.now ≤ 63 }
    requires room { NoLogFull (map (λ journal. journal.lines) journals.now) }
    ensures { (at : ℕ) → at < 11 → slice_index_or result at 0 ≡ answers_at (map (λ journal. journal.lines) journals.now) at }
{
    let mut counts = [0; PLACES];
    for journal in journals {
        count_answers(&mut counts, journal.lines());
    }
    counts
}

/// How many commands were answered.
pub(super) fn commands_of(journals: &[Journal]) -> u64
    requires { length journals.now ≤ 63 }
    ensures { result ≡ sum_of (map (λ journal. journal.lines) journals.now) }
{
    let mut commands = 0;
    for journal in journals {
        commands += journal.lines().len() as u64;
    }
    commands
}
