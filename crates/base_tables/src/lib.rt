// Tables and rings of fixed-width records, each inside one lent slice. A record is a part of the slice, so that one function
// serves every record type; what reads and writes a type's numbers is a `Codec` of the laws.
#![tactic(auto)]

mod ring;
mod table;

pub use ring::{place, ring_drop, ring_push, ring_record};
pub use table::{insert_record, put_record, record_at, remove_records};
