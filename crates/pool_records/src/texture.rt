// A tracked texture. Twenty-two numbers: the id first, so that a search reads one number a record, then the shape's twelve; near the
// end the bytes of one version of that shape, so that no call works them out again; last where its history's grids begin, in `newest`
// and in the stamps, so that no call adds up those of the textures before it.
ghost use Rattle.pool_records.specs.Recorded.{RecordedFits};
ghost use Rattle.pool_records.specs.Texture.{read_texture, write_texture};
ghost use Rattle.pool_records.specs.Codecs.{texture_codec};

use crate::constants::{
    TEXTURE_BYTES_AT, TEXTURE_DUE_AT, TEXTURE_GRID_AT, TEXTURE_HISTORY_AT, TEXTURE_KIND_AT,
    TEXTURE_LEVELS_AT, TEXTURE_RENAME_AT, TEXTURE_SPARES_AT, TEXTURE_STAMP_AT, TEXTURE_STRIDE,
};
use crate::record::Record;
use crate::recorded::{read_recorded, recorded_number};
use grid_shapes::VersionShape;

#[derive(Clone, Copy)]
pub struct TextureRecord {
    pub id: u64,
    pub shape: VersionShape,
    pub epoch: u64,
    pub history: Option<u64>,
    pub birth: u64,
    pub rename: u64,
    pub due: u64,
    pub spares: u64,
    pub bytes: u64,
    pub grid: u64,
    pub stamp: u64,
}

#[tactic(auto, unfolding(crate::specs::Texture::read_texture, crate::specs::Texture::write_texture))]
impl Record<TEXTURE_STRIDE> for TextureRecord {
    ghost fits = { λ x. RecordedFits x.history };

    ghost read_from = { read_texture };

    ghost written = { write_texture };

    fn read(p: &[u64]) -> TextureRecord {
        let shape = VersionShape {
            format: p[1],
            width: p[2],
            height: p[3],
            depth: p[4],
            levels: p[TEXTURE_LEVELS_AT],
            kind: p[TEXTURE_KIND_AT],
            storage: p[7],
            usage: p[8],
            red: p[9],
            green: p[10],
            blue: p[11],
            alpha: p[12],
        };
        TextureRecord {
            id: p[0],
            shape,
            epoch: p[13],
            history: read_recorded(p[TEXTURE_HISTORY_AT]),
            birth: p[15],
            rename: p[TEXTURE_RENAME_AT],
            due: p[TEXTURE_DUE_AT],
            spares: p[TEXTURE_SPARES_AT],
            bytes: p[TEXTURE_BYTES_AT],
            grid: p[TEXTURE_GRID_AT],
            stamp: p[TEXTURE_STAMP_AT],
        }
    }

    fn numbers(self) -> [u64; TEXTURE_STRIDE] {
        let s = self.shape;
        [
            self.id,
            s.format,
            s.width,
            s.height,
            s.depth,
            s.levels,
            s.kind,
            s.storage,
            s.usage,
            s.red,
            s.green,
            s.blue,
            s.alpha,
            self.epoch,
            recorded_number(self.history),
            self.birth,
            self.rename,
            self.due,
            self.spares,
            self.bytes,
            self.grid,
            self.stamp,
        ]
    }

    ghost codec = { texture_codec };
}
