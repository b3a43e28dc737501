//! The calls on a well: made with a mark, then fed, drawn from and loaded.
ghost use Rattle.std.specs.Prelude.{◌≡◌, length, IfOk, None, Ok};
ghost use Rattle.extractors.specs.Calls.{Judged};
ghost use Rattle.well.specs.Lean.{flags, lean};
ghost use Rattle.well.specs.State.{fresh};
ghost use Rattle.well.specs.Steps.{Call, HandedBack, KeyKept, Step, filled, no_key, no_room, not_taken, of_draw, of_feed, of_load};
ghost use Rattle.well.specs.Trays.{Zero};
ghost use Rattle.well.specs.View.{state};

use super::{MOST_POURED, Well};
use crate::fault::WellFault;
use crate::queue::{Queue, ROOM};
use crate::slip::{Returned, Slip};
use crate::tray::Wipe;
use extractors::interface::SymbolExtractor;
use std::alloc::{AllocError, Global};

/// The most bytes of one key.
pub const MOST_KEY: usize = 32;

impl Well {
    /// A well with this mark, empty, and all its totals zero. Its room is taken now: pouring never wants memory.
    pub fn new(heap: Global, mark: u32) -> Result<Well, AllocError>
        ensures { IfOk result (λ w. state w ≡ fresh mark) }
    {
        let queue = Queue::new(heap)?;
        Ok(Well {
            mark,
            queue,
            poured: 0,
            loaded: 0,
            out: 0,
            draws: 0,
        })
    }

    // Each call that takes a tray says that it is wiped: by a rule of the project a contract tells every byte of it.
    /// Appends the pile's bits to the queue and answers the yield and the lean. The tray is all zero on every way out.
    pub fn feed<E: SymbolExtractor>(
        &mut self,
        heap: Global,
        pile: &E,
        size: u8,
        recording: &[u8],
        tray: &mut [u8],
    ) -> Result<(u32, i32), WellFault>
        ensures step { Step (state self.old) (Call.feed (E.SymbolExtractor.pile pile.now) size recording.now (length tray.old)) (of_feed result) (state self.new) }
        ensures tray_wiped { Zero tray.new }
    {
        let guard = Wipe { tray };
        self.pour(heap, pile, size, recording, guard.tray)
    }

    /// Moves the pile's bits to the queue; the tray is left as the pile left it.
    fn pour<E: SymbolExtractor>(
        &mut self,
        heap: Global,
        pile: &E,
        size: u8,
        recording: &[u8],
        tray: &mut [u8],
    ) -> Result<(u32, i32), WellFault>
        ensures { Step (state self.old) (Call.feed (E.SymbolExtractor.pile pile.now) size recording.now (length tray.old)) (of_feed result) (state self.new) }
    {
        let gain = pile.extract(heap, size, recording, tray)?;
        self.judge_gain(gain)?;
        let lean = self.fill(&tray[..gain]);
        // At most 16,640 bits are taken, so the cast loses nothing.
        Ok((gain as u32, lean))
    }

    /// Whether the well takes so many bits more.
    fn judge_gain(&self, gain: usize) -> Result<(), WellFault>
        ensures { Judged (no_room (state self.now) gain) result }
    {
        // `usize` has no `From<u32>`; a `usize` has 64 bits, so the cast loses nothing.
        if gain > (MOST_POURED - self.poured) as usize {
            return Err(WellFault::Poured(gain));
        }
        if gain > ROOM - self.held() {
            return Err(WellFault::Full(gain));
        }
        Ok(())
    }

    /// Appends the bits that the bytes stand for, and answers their lean.
    fn fill(&mut self, bits: &[u8]) -> i32
        requires { no_room (state self.old) (length bits.now) ≡ None }
        ensures filled { state self.new ≡ filled (state self.old) (flags bits.now) }
        ensures leans { result ≡ lean (flags bits.now) }
    {
        let lean = self.queue.append(bits);
        // At most 16,640 bits are taken, so the cast loses nothing.
        self.poured += bits.len() as u32;
        lean
    }

    /// Fills the key with the oldest bits, the first as the highest bit of byte 0, and hands over the slip of the draw.
    pub fn draw(&mut self, key: &mut [u8]) -> Result<Slip, WellFault>
        ensures step { Step (state self.old) (Call.draw (length key.old)) (of_draw key.new result) (state self.new) }
        ensures key_kept { KeyKept key.old result key.new }
    {
        self.judge_key(key.len())?;
        Ok(self.deal(key))
    }

    /// Whether the well deals a key of so many bytes.
    fn judge_key(&self, bytes: usize) -> Result<(), WellFault>
        ensures { Judged (no_key (state self.now) bytes) result }
    {
        if !(1..=MOST_KEY).contains(&bytes) {
            return Err(WellFault::KeyLength(bytes));
        }
        let held = self.held();
        if held < 8 * bytes {
            return Err(WellFault::Short(held));
        }
        Ok(())
    }

    /// Takes the oldest bits as a key.
    fn deal(&mut self, key: &mut [u8]) -> Slip
        requires { no_key (state self.old) (length key.old) ≡ None }
        ensures { Step (state self.old) (Call.draw (length key.old)) (of_draw key.new (Ok result)) (state self.new) }
    {
        self.queue.take_front(key);
        // At most 32 bytes, so the cast loses nothing.
        let bits = 8 * key.len() as u32;
        self.out += bits;
        self.draws += 1;
        Slip::cut(self.mark, self.draws, bits)
    }

    /// Takes a slip back and moves its bits from out to loaded; a refused slip is handed back.
    pub fn load(&mut self, slip: Slip) -> Result<(), Returned>
        ensures step { Step (state self.old) (Call.load slip) (of_load result) (state self.new) }
        ensures handed_back { HandedBack slip result }
    {
        if let Err(fault) = self.judge_slip(&slip) {
            return Err(Returned { slip, fault });
        }
        let spent = slip.spend();
        self.out -= spent;
        self.loaded += spent;
        Ok(())
    }

    /// Whether the well takes the slip.
    fn judge_slip(&self, slip: &Slip) -> Result<(), WellFault>
        ensures { Judged (not_taken (state self.now) slip.now) result }
    {
        let mark = slip.mark();
        if mark != self.mark {
            return Err(WellFault::Mark(mark));
        }
        let bits = slip.bits();
        if bits > self.out {
            return Err(WellFault::Excess(bits));
        }
        Ok(())
    }
}
