// A version to be destroyed. Two numbers.
ghost use Rattle.pool_records.specs.Doomed.{read_doomed, write_doomed};
ghost use Rattle.pool_records.specs.Codecs.{doomed_codec};

use crate::constants::{DOOMED_BYTES_AT, DOOMED_STRIDE};
use crate::record::Record;

#[derive(Clone, Copy)]
pub struct DoomedRecord {
    pub view: u64,
    pub bytes: u64,
}

#[tactic(auto, unfolding(crate::specs::Doomed::read_doomed, crate::specs::Doomed::write_doomed))]
impl Record<DOOMED_STRIDE> for DoomedRecord {
    ghost fits = { λ _. Unit {0} };

    ghost read_from = { read_doomed };

    ghost written = { write_doomed };

    fn read(p: &[u64]) -> DoomedRecord {
        DoomedRecord {
            view: p[0],
            bytes: p[DOOMED_BYTES_AT],
        }
    }

    fn numbers(self) -> [u64; DOOMED_STRIDE] {
        [self.view, self.bytes]
    }

    ghost codec = { doomed_codec };
}
