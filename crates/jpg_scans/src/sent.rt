//! What was sent of a component (T.81, G.1.1.1).
ghost use Rattle.std.specs.Prelude.{◌≡◌, ◌<◌, IfSome};
ghost use Rattle.jpg_spec.specs.History.{is_known_to};
ghost use Rattle.jpg_scans.specs.Sent.{first_unknown, is_due, are_due, is_next_in, nothing_sent, IsNoted};

use jpg_base::ScanHead;

// Whether it was in a scan, and for each coefficient the bit down to which it is known.
#[derive(Clone, Copy)]
pub struct Sent {
    pub is_begun: bool,
    pub known: [Option<u8>; 64],
}

impl Sent {
    // A component that was in no scan.
    pub fn new() -> Sent
        ensures { result ≡ nothing_sent }
    {
        Sent {
            is_begun: false,
            known: [None; 64],
        }
    }

    // Whether a scan of this component is its next.
    pub fn is_next(&self, head: &ScanHead) -> bool
        ensures { result ≡ is_next_in self.now head.now }
    {
        (head.ss == 0 || self.known[0].is_some()) && self.has_due(head)
    }

    // Whether each coefficient of the band may be sent next.
    #[tactic(auto, using(crate::proofs::Histories::due_none, crate::proofs::Histories::due_more))]
    fn has_due(&self, head: &ScanHead) -> bool
        ensures { result ≡ are_due self.now head.now 64 }
    {
        let mut all = true;
        for k in 0..64u8 {
            let is_in_band = head.ss <= k && k <= head.se;
            all = all && (!is_in_band || is_due(head.ah, self.known[k as usize]));
        }
        all
    }

    // The first coefficient that isn't known down to bit 0.
    #[tactic(auto, using(crate::proofs::Unknown::next_unknown, crate::proofs::Unknown::end_unknown))]
    pub fn first_unknown(&self) -> Option<u8>
        ensures value { result ≡ first_unknown self.now 0 }
        ensures low { IfSome result (λ k. k < 64) }
    {
        for k in 0..64u8 {
            if !is_whole(self.known[k as usize]) {
                return Some(k);
            }
        }
        None
    }

    // Notes one more scan of it.
    pub fn note(&mut self, head: &ScanHead)
        ensures { IsNoted self.old head.now self.new }
    {
        self.is_begun = true;
        for k in 0..64u8 {
            if head.ss <= k && k <= head.se {
                self.known[k as usize] = Some(head.al);
            }
        }
    }
}

// Whether a coefficient may be sent next: a first pass finds it unsent, a refinement finds it known down to Ah.
fn is_due(ah: u8, known: Option<u8>) -> bool
    ensures { result ≡ is_due ah known }
{
    match known {
        None => ah == 0,
        Some(bit) => ah != 0 && bit == ah,
    }
}

// Whether a coefficient is known down to bit 0.
fn is_whole(known: Option<u8>) -> bool
    ensures { result ≡ is_known_to known 0 }
{
    match known {
        None => false,
        Some(bit) => bit == 0,
    }
}
