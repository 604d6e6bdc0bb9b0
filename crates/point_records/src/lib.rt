// The records that cross to C of a bitmap in force and of a point's data number, by value and in its layout, and how
// each is made of an answer.
#![tactic(auto)]

ghost use Rattle.std.specs.Prelude.{◌≡◌};
ghost use Rattle.data_numbers.specs.Told.{told};
ghost use Rattle.records.specs.Records.{part_by};
ghost use Rattle.point_records.specs.Records.{the_data_record};

use data_numbers::Numbered;
use handed_back::Force;
use records::PartRecord;

#[repr(C)]
#[derive(Clone, Copy)]
pub struct DataRecord {
    pub kind: u32,
    pub data_number: u32,
}

// The part that the bitmap in force is: of the message, or of the lent store.
pub fn force_record(f: Force) -> PartRecord
    ensures { result ≡ part_by f.stored f.part }
{
    let mut stored: u32 = 0;
    if f.stored {
        stored = 1;
    }
    PartRecord {
        stored,
        start: f.part.start,
        len: f.part.len,
    }
}

// A data number, or why there is none.
pub fn data_record(n: Numbered) -> DataRecord
    ensures { result ≡ the_data_record (told n) }
{
    match n {
        Numbered::Present(k) => DataRecord {
            kind: 1,
            data_number: k.number(),
        },
        Numbered::Absent => DataRecord {
            kind: 2,
            data_number: 0,
        },
        Numbered::Outside => DataRecord {
            kind: 0,
            data_number: 0,
        },
    }
}
