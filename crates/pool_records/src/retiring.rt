// A version that a rename replaced, until it is parked or handed back. Seven numbers.
ghost use Rattle.pool_records.specs.Retiring.{read_retiring, write_retiring};
ghost use Rattle.pool_records.specs.Codecs.{retiring_codec};

use crate::constants::RETIRING_STRIDE;
use crate::record::Record;

#[derive(Clone, Copy)]
pub struct RetiringRecord {
    pub id: u64,
    pub view: u64,
    pub seq: u64,
    pub epoch: u64,
    pub birth: u64,
    pub held: u64,
    pub bytes: u64,
}

#[tactic(auto, unfolding(crate::specs::Retiring::read_retiring, crate::specs::Retiring::write_retiring))]
impl Record<RETIRING_STRIDE> for RetiringRecord {
    ghost fits = { λ _. Unit {0} };

    ghost read_from = { read_retiring };

    ghost written = { write_retiring };

    fn read(p: &[u64]) -> RetiringRecord {
        RetiringRecord {
            id: p[0],
            view: p[1],
            seq: p[2],
            epoch: p[3],
            birth: p[4],
            held: p[5],
            bytes: p[6],
        }
    }

    fn numbers(self) -> [u64; RETIRING_STRIDE] {
        [
            self.id, self.view, self.seq, self.epoch, self.birth, self.held, self.bytes,
        ]
    }

    ghost codec = { retiring_codec };
}
