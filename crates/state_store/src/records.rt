ghost use Rattle.std.specs.Prelude.{◌≡◌, IfOk};
ghost use Rattle.state_store.specs.Records.{records_in};

use base_moment::Text;
use state_changes::{Record, read_record};
use std::alloc::{AllocError, Global};

/// The records that lines write, without the lines that write none. The only error is lack of memory.
#[tactic(auto, using(crate::proofs::Lists::records_none, crate::proofs::Lists::record_found, crate::proofs::Lists::record_not, crate::proofs::Lists::records_all))]
pub(crate) fn records_in(alloc: Global, lines: &[Text]) -> Result<Vec<Record>, AllocError>
    ensures { IfOk result (λ records. records.items ≡ records_in lines.now) }
{
    let mut records = Vec::new(alloc);
    for line in lines {
        if let Some(record) = read_record(alloc, line.list())? {
            records.push(record)?;
        }
    }
    Ok(records)
}
