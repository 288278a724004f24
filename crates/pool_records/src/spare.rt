// A spare: a retired version kept for its texture's next rename. Three numbers.
ghost use Rattle.pool_records.specs.Held.{HeldFits};
ghost use Rattle.pool_records.specs.Spare.{read_spare, write_spare};
ghost use Rattle.pool_records.specs.Codecs.{spare_codec};

use crate::constants::{SPARE_HELD_AT, SPARE_PARKED_AT, SPARE_STRIDE};
use crate::held::{held_number, read_held};
use crate::record::Record;
use pool_rules::Held;

#[derive(Clone, Copy)]
pub struct SpareRecord {
    pub view: u64,
    pub held: Held,
    pub parked: u64,
}

#[tactic(auto, unfolding(crate::specs::Spare::read_spare, crate::specs::Spare::write_spare))]
impl Record<SPARE_STRIDE> for SpareRecord {
    ghost fits = { λ x. HeldFits x.held };

    ghost read_from = { read_spare };

    ghost written = { write_spare };

    fn read(p: &[u64]) -> SpareRecord {
        SpareRecord {
            view: p[0],
            held: read_held(p[SPARE_HELD_AT]),
            parked: p[SPARE_PARKED_AT],
        }
    }

    fn numbers(self) -> [u64; SPARE_STRIDE] {
        [self.view, held_number(self.held), self.parked]
    }

    ghost codec = { spare_codec };
}
