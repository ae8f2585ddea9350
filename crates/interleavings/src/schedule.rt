//! Sessions by a schedule.
ghost use Rattle.std.specs.Prelude.{OnErr, OnOk, length};
ghost use Rattle.interleavings.specs.Scheduled.{Goes, RunsAll, RunsEach, RunsList, RunsRound, RunsSome, RunsWhole, Settles, SettlesPartly};

use crate::turns::Turns;
use durable_top::TopStore;
use serial_spec::NoMemory;

// The schedule's attempts.
fn run_list<S: TopStore>(turns: &mut Turns<S>, schedule: &[u32]) -> Result<(), NoMemory>
    ensures ok { OnOk result (RunsList S.TopStore schedule.now turns.old turns.new) }
    ensures err { OnErr result (Goes S.TopStore turns.old turns.new) }
{
    for place in 0..schedule.len() {
        turns.step(schedule[place])?;
    }
    Ok(())
}

// An attempt of each session, in order. Those that are left out are passed over, since an attempt of
// them does nothing.
fn run_each<S: TopStore>(turns: &mut Turns<S>) -> Result<(), NoMemory>
    ensures ok { OnOk result (RunsEach S.TopStore (length turns.old.sessions) turns.old turns.new) }
    ensures err { OnErr result (RunsSome S.TopStore turns.old turns.new) }
{
    let mut from = 0;
    while let Some(session) = turns.next_ready(from) {
        turns.step(session)?;
        from = session + 1;
    }
    Ok(())
}

/// Attempts each session, in order, again and again, until no line may be answered or begin to
/// wait. The only error is that memory runs out; what was done until then stands: each session was
/// attempted so many times, and the first of them once more.
pub fn settle<S: TopStore>(turns: &mut Turns<S>) -> Result<(), NoMemory>
    ensures ok { OnOk result (Settles S.TopStore turns.old turns.new) }
    ensures err { OnErr result (SettlesPartly S.TopStore turns.old turns.new) }
{
    while turns.goes_on_still() {
        run_each(turns)?;
    }
    Ok(())
}

fn run_round<S: TopStore>(turns: &mut Turns<S>) -> Result<(), NoMemory>
    ensures ok { OnOk result (RunsRound S.TopStore turns.old turns.new) }
    ensures err { OnErr result (Goes S.TopStore turns.old turns.new) }
{
    run_each(turns)?;
    turns.stuck()?;
    Ok(())
}

// Rounds, until no line is left. Each of them adds an entry of a line.
fn run_rounds<S: TopStore>(turns: &mut Turns<S>) -> Result<(), NoMemory>
    ensures ok { OnOk result (RunsAll S.TopStore turns.old turns.new) }
    ensures err { OnErr result (Goes S.TopStore turns.old turns.new) }
{
    while !turns.finished() {
        run_round(turns)?;
    }
    Ok(())
}

/// Runs sessions under way until no line is left: first an attempt for each item of the schedule,
/// where one of a finished session, or of none, changes nothing; then rounds, in each of which
/// every session with lines left is attempted once and after which the stuck rule is applied once.
/// The only error is that memory runs out; what was done until then stands.
#[tactic(auto, using(crate::proofs::Closed::runs_whole))]
pub(crate) fn run_all<S: TopStore>(turns: &mut Turns<S>, schedule: &[u32]) -> Result<(), NoMemory>
    ensures ok { OnOk result (RunsWhole S.TopStore schedule.now turns.old turns.new) }
    ensures err { OnErr result (Goes S.TopStore turns.old turns.new) }
{
    run_list(turns, schedule)?;
    run_rounds(turns)
}
