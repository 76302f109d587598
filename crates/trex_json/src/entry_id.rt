// The id of a stream whose entry stands alone in a text.

ghost use Rattle.std.specs.Prelude.{◌≡◌, IfOk};
ghost use Rattle.trex_json.specs.EntryId.{entry_id};

use crate::names::whole_field;
use crate::reading::read_json;
use std::alloc::Global;
use trex_io::Memory;

/// The `stream_id` of an entry, whose text this is: None where the text has no JSON reading, and 0 where the id is missing or not of its
/// kind, which a rule of profiles refuses.
pub fn read_entry_id(alloc: Global, text: &[u8]) -> Result<Option<u32>, Memory>
    ensures { IfOk result (λ id. id ≡ entry_id text.now) }
{
    let Some(entry) = read_json(alloc, text)? else {
        return Ok(None);
    };
    let id = whole_field(&entry, "stream_id", 2_147_483_647, None).unwrap_or(0);
    Ok(Some(id as u32))
}
