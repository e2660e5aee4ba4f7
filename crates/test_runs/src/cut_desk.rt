// A desk in memory whose first read is cut.
ghost use Rattle.std.specs.Prelude.{◌≡◌, ◌<◌, length, true};

use jpg_base::{Counts, Desk, Got, MemoryDesk, Name, Put};

/// A desk in memory whose first read is cut: it gives at most so many bytes, and the others as many as fit.
#[derive(Drop)]
pub struct CutDesk {
    pub desk: MemoryDesk,
    /// How many bytes the next read gives at most, but at least one.
    pub most: usize,
}

impl Desk for CutDesk {
    ghost use Rattle.jpg_base.specs.Desk.{Reads};
    ghost use Rattle.test_runs.specs.Cut.{cut_state};

    ghost state = { cut_state };

    fn open(&mut self, name: &Name) -> Put {
        self.desk.open(name)
    }

    fn read(&mut self, buf: &mut [u8]) -> Got
        requires open { (cut_state self.old).input_open ≡ true }
        requires room { 0 < length buf.old }
        ensures { Reads (cut_state self.old) result buf.new (cut_state self.new) }
    {
        let most = buf.len().min(self.most).max(1);
        self.most = usize::MAX;
        self.desk.read(&mut buf[..most])
    }

    fn create(&mut self, name: &Name) -> Put {
        self.desk.create(name)
    }

    fn write(&mut self, piece: &[u8]) -> Put {
        self.desk.write(piece)
    }

    fn say(&mut self, text: &[u8]) -> Put {
        self.desk.say(text)
    }

    fn counts(&self) -> Counts {
        self.desk.counts()
    }
}
