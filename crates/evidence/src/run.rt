// Evidence records as they stand in bytes, one behind the other: those that are whole, and each by its index.
ghost use Rattle.std.specs.Prelude.{◌*◌, ◌≤◌, length};
ghost use Rattle.model.specs.Evidence.{evidence_bytes};

use crate::record_at;
use model::{EVIDENCE_BYTES, Evidence};

// So many records from the start of the bytes on.
#[derive(Clone, Copy)]
pub struct EvidenceRecords<'a> {
    pub bytes: &'a [u8],
    pub count: usize,
    pub ghost inside: { evidence_bytes * count ≤ length bytes.now },
}

impl<'a> EvidenceRecords<'a> {
    ghost use Rattle.std.specs.Prelude.{◌<◌, ◌≡◌};
    ghost use Rattle.model.specs.Evidence.{records_held};
    ghost use Rattle.evidence.specs.Run.{record_of, records_of};

    // All whole records of the bytes.
    pub fn of(bytes: &'a [u8]) -> EvidenceRecords<'a>
        ensures { records_of result ≡ records_held bytes.now }
    {
        EvidenceRecords {
            bytes,
            count: bytes.len() / EVIDENCE_BYTES,
        }
    }

    pub fn record(self, i: usize) -> Evidence
        requires { i < self.count }
        ensures { result ≡ record_of self.entry i }
    {
        record_at(self.bytes, EVIDENCE_BYTES * i)
    }
}
