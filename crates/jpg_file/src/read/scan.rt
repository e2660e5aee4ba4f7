//! The data of a scan, read byte by byte (T.81, A.2.3, B.1.1.5, E.1.4, E.2.4).
ghost use Rattle.std.specs.Prelude.{◌≡◌, ◌+◌, ◌<◌, ◌≤◌, ◌&&◌, not, false, true, ℕ, List, length, Ok, Err, []};
ghost use Rattle.jpg_spec.specs.ScanReading.{ScanPlace};
ghost use Rattle.jpg_spec.specs.declared.frame.Limits.{Limits};
ghost use Rattle.jpg_coefs.specs.Machine.{fault_of};
ghost use Rattle.jpg_coefs.specs.Picture.{Picture};
ghost use Rattle.jpg_file.specs.Read.InData.{ArePlain, MarkerAt, TakesCode, scan_answer, work_after, scan_left, IsDataOf, IsHalfRow, PassesByte, PassesRun, TakesByteInto, TakesRestInRow, TakesRunInto};
ghost use Rattle.jpg_file.specs.Read.Strips.{PassesRest};
ghost use Rattle.jpg_file.specs.Read.Window.{waiting_in};

use crate::read::machine::ScanReader;
use crate::read::rows::RowWork;
use crate::read::window::Window;
use jpg_base::codes::RST0;
use jpg_coefs::{Taken, UnitFault};
use jpg_huff::{Gate, Passed};
use jpg_spec::Fault;

/// The current scan (T.81, E.1.4).
#[derive(Drop)]
pub struct InScan {
    /// Whether FF bytes wait.
    pub gate: Gate,
    /// What reads its units.
    pub machine: ScanReader,
    /// The current interval is complete.
    pub whole: bool,
    /// Units of an interval; 0: all are in one.
    pub interval: u64,
    /// Units after the current interval.
    pub due: u64,
    /// The number of the next RST marker, 0 to 7.
    pub turn: u8,
}

// The fault of a file for the fault of a unit.
fn named(fault: UnitFault) -> Fault
    ensures { result ≡ fault_of fault }
{
    match fault {
        UnitFault::NoCode => Fault::NoCode,
        UnitFault::BadSymbol => Fault::BadSymbol,
        UnitFault::BadRun => Fault::BadRun,
        UnitFault::CoefRange => Fault::CoefRange,
        UnitFault::RunPastEnd => Fault::RunPastEnd,
    }
}

impl InScan {
    /// Takes a byte of the file, after those of the scan so far. Returns whether the data are over: then it is the code
    /// of the marker that ended them, and all intervals are complete.
    #[tactic(auto, using(crate::proofs::Scans::ScanBytes::never_over))]
    pub fn byte(&mut self, window: &mut Window, byte: u8) -> Result<bool, Fault>
        requires inside { IsDataOf self.old window.old }
        requires none { waiting_in window.old ≡ [] }
        ensures takes { TakesByteInto self.old window.old byte result self.new window.new }
        ensures passes { PassesByte self.old window.old byte result self.new window.new }
        ensures waited { result ≡ Ok true → self.old.gate ≡ true }
        ensures done { result ≡ Ok true → scan_left self.new ≡ 0 }
    {
        match self.gate.byte(byte) {
            Passed::More => Ok(false),
            Passed::Data(data) => {
                if self.whole {
                    return Err(Fault::ExtraData);
                }
                let (_, taken) = window.take_bytes(&mut self.machine, &[data]);
                self.stepped(taken)
            }
            Passed::Marker(code) => self.marker(code),
        }
    }

    /// Whether plain bytes may be taken together: no FF waits, and units are left.
    pub fn is_open(&self) -> bool
        ensures is { result ≡ (not self.now.gate && not self.now.whole) }
        ensures gate { result ≡ true → self.now.gate ≡ false }
        ensures due { result ≡ true → self.now.whole ≡ false }
    {
        !self.gate.is_waiting() && !self.whole
    }

    /// Takes plain bytes from the start of a run, at most up to the byte that ends the interval, reveals a fault or has
    /// bits that wait. Returns how many were taken, and the result, as of a byte that is no marker's.
    pub fn run(&mut self, window: &mut Window, run: &[u8]) -> (usize, Result<bool, Fault>)
        requires inside { IsDataOf self.old window.old }
        requires gate { self.old.gate ≡ false }
        requires due { self.old.whole ≡ false }
        requires some { 1 ≤ length run.now }
        requires few { length run.now < 4294967296 }
        requires plain { ArePlain run.now }
        ensures takes { TakesRunInto self.old window.old run.now result.0 result.1 self.new window.new }
        ensures within { result.0 ≤ length run.now }
        ensures passes { PassesRun self.old window.old run.now result.0 result.1 self.new window.new }
    {
        let (n, taken) = window.take_bytes(&mut self.machine, run);
        (n, self.stepped(taken))
    }

    /// Takes the bits that wait after the last MCU row.
    pub fn rest_in_row(&mut self, rows: &mut RowWork) -> Result<bool, Fault>
        requires { IsHalfRow self.old rows.old }
        ensures takes { TakesRestInRow self.old rows.old result self.new rows.new }
        ensures passes { PassesRest self.old rows.old result self.new rows.new }
        ensures gate { self.new.gate ≡ self.old.gate }
    {
        let store = rows.waiting.copy();
        let taken = rows.take_bits(&mut self.machine, store);
        self.stepped(taken)
    }

    // Notes the machine's result of data, after which they aren't over.
    fn stepped(&mut self, taken: Taken) -> Result<bool, Fault>
        requires gate { self.old.gate ≡ false }
        requires due { self.old.whole ≡ false }
        ensures answer { result ≡ scan_answer taken }
        ensures work { self.new ≡ work_after self.old self.old.machine taken }
    {
        match taken {
            Taken::More | Taken::Units => {}
            Taken::IntervalDone => self.whole = true,
            Taken::Fault(fault) => return Err(named(fault)),
        }
        Ok(false)
    }

    // Takes a marker's code: the RST that is next begins the next interval, any other ends the data (T.81, E.1.4).
    // Returns whether the data are over.
    fn marker(&mut self, code: u8) -> Result<bool, Fault>
        requires { (limits : Limits) × (p : ScanPlace) × (bytes : List ℕ) × (now : Picture) × MarkerAt limits bytes p code self.old now }
        ensures takes { (now : Picture) → TakesCode self.old now code result self.new }
        ensures gate { self.new.gate ≡ self.old.gate }
        ensures left { scan_left self.new ≡ scan_left self.old }
        ensures done { result ≡ Ok true → scan_left self.new ≡ 0 }
        ensures wrong { (fault : Fault) → result ≡ Err fault → self.old.whole ≡ true → code ≡ 0xd0 + self.old.turn → ⊥ }
    {
        if !self.whole {
            return Err(Fault::EntropyShort);
        }
        if self.due == 0 {
            return Ok(true);
        }
        if code != RST0 + self.turn {
            return Err(Fault::RestartWrong);
        }
        let units = self.interval.min(self.due);
        self.machine.restart(units);
        self.whole = false;
        self.due -= units;
        self.turn = (self.turn + 1) % 8;
        Ok(false)
    }
}
