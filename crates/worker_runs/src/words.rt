//! How many workers a word of the command line asks for.
ghost use Rattle.std.specs.Prelude.{◌≡◌, IfSome};
ghost use Rattle.std.specs.Option.{option_copied};
ghost use Rattle.worker_runs.specs.Workers.{AreFew, workers_of};

use session_text::parse_number;
use worker_pool::MOST_WORKERS;

/// How many workers there are where none are named.
const WORKERS: u32 = 4;

/// How many workers a word asks for, and 4 where there is no word. The word is a number from 1 to
/// 16.
pub fn workers_of(word: Option<&str>) -> Option<u32>
    ensures count { result ≡ workers_of (option_copied word.entry) }
    ensures few { IfSome result AreFew }
{
    let Some(word) = word else {
        return Some(WORKERS);
    };
    match u32::try_from(parse_number(word.as_bytes())?) {
        Ok(count) if 0 < count && count <= MOST_WORKERS => Some(count),
        _ => None,
    }
}
