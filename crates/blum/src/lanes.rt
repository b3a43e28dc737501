//! The lanes of a recording, one behind the other in one list of exits.
ghost use Rattle.std.specs.Prelude.{◌≡◌, ℕ, ◌<◌, ◌≤◌, IfOk, get_or, length, []};
ghost use Rattle.classes.specs.Recordings.{Recording};
ghost use Rattle.extractors.specs.Lanes.{lane};
ghost use Rattle.extractors.specs.Rows.{Filed};
ghost use Rattle.blum.specs.Flat.{AllBegun, AllCounted, AllPlaced, most_states};

use std::alloc::{AllocError, Global};
use std::marker::Model;

/// The most states that an alphabet has.
const MOST_STATES: usize = 16;

/// The lane of each state from 0 to 15, one behind the other.
#[derive(Drop)]
pub(crate) struct Lanes {
    exits: Vec<u8>,
    // Where the lane of each state begins, and last where the lane of 15 ends. A recording has at most 4,096 codes.
    cuts: [u16; MOST_STATES + 1],
}

impl Model for Lanes {
    ghost use Rattle.std.specs.Prelude.{ℕ, List, length};
    ghost use Rattle.blum.specs.Flat.{Within, parts};

    ghost Value = { List (List ℕ) };

    ghost view = { λ a. parts a.cuts a.exits.items };

    ghost invariant = { λ a. Within a.cuts (length a.exits.items) };
}

impl Lanes {
    /// The lane of a state.
    pub(crate) fn lane(&self, state: usize) -> &[u8]
        requires { state < most_states }
        ensures { result.now ≡ get_or self.now state [] }
    {
        &self.exits[usize::from(self.cuts[state])..usize::from(self.cuts[state + 1])]
    }
}

/// How many exits each state has: every code but the last has one.
fn count_exits(recording: &[u8]) -> [u16; MOST_STATES]
    requires { Recording most_states recording.now }
    ensures { AllCounted recording.now result }
{
    let mut counts = [0; MOST_STATES];
    let visits = recording.len().saturating_sub(1);
    for code in &recording[..visits] {
        counts[usize::from(*code)] += 1;
    }
    counts
}

/// The cuts before any exit is placed: behind the first stands for each state where its lane begins.
fn begin_lanes(recording: &[u8]) -> [u16; MOST_STATES + 1]
    requires { Recording most_states recording.now }
    ensures { AllBegun recording.now result }
{
    let counts = count_exits(recording);
    let mut cuts = [0; MOST_STATES + 1];
    let mut at = 0;
    for (state, count) in counts.iter().enumerate() {
        cuts[state + 1] = at;
        at += *count;
    }
    cuts
}

/// Writes the code after each visit behind what the lane of the state visited has so far, and moves the cut behind it.
fn place_exits(recording: &[u8], cuts: &mut [u16; MOST_STATES + 1], exits: &mut [u8])
    requires recorded { Recording most_states recording.now }
    requires begun { AllBegun recording.now cuts.old }
    requires room { length recording.now ≤ length exits.old }
    ensures { AllPlaced recording.now cuts.new exits.new }
{
    // A loop over the codes with their index, which fills the lanes, is a rule of the project.
    for (i, code) in recording.iter().enumerate() {
        if let Some(next) = recording.get(i + 1) {
            let cut = usize::from(*code) + 1;
            exits[usize::from(cuts[cut])] = *next;
            cuts[cut] += 1;
        }
    }
}

/// Files the code after each visit under the state visited: the lane of each state.
pub(crate) fn file_exits(heap: Global, recording: &[u8]) -> Result<Lanes, AllocError>
    requires { Recording most_states recording.now }
    ensures { IfOk result (Filed most_states lane recording.now) }
{
    let mut cuts = begin_lanes(recording);
    let mut exits = vec![in heap; 0u8; recording.len()]?;
    place_exits(recording, &mut cuts, &mut exits);
    Ok(Lanes { exits, cuts })
}
