// The codec's functions for C: each is one call of the function of that name in `grib1`, with its clauses.
// include/grib1.h declares them, and the records that cross.
#![tactic(auto)]

ghost use Rattle.std.specs.Prelude.{◌≡◌};
ghost use Rattle.rules.specs.Chart.{the_row_long, charted, pointed};
ghost use Rattle.rules.specs.Grid.{shape_of};
ghost use Rattle.rules.specs.Reading.{header_of, read_of, the_values_after, the_marks_after, section_of, bitmap_of};
ghost use Rattle.rules.specs.Reading.{numbering_of};
ghost use Rattle.rules.specs.Cursor.{index_of, the_index_after, cursor_of};
ghost use Rattle.rules.specs.Display.{display_of};
ghost use Rattle.rules.specs.Writing.{write_of, output_after, length_for};
ghost use Rattle.rules.specs.Checking.{check_of, source_as};
ghost use Rattle.rules.specs.Packing.{pack_of, packed_after};
ghost use Rattle.framing.specs.Given.{parts as the_parts};
ghost use Rattle.records.specs.Forms.{the_grid_back, the_form_by, the_scale_by};
ghost use Rattle.point_records.specs.Records.{the_force_record, the_data_record};
ghost use Rattle.records.specs.Records.{the_part_record, the_header_record, the_place_record, the_point_record};
ghost use Rattle.records.specs.Records.{the_display_record};
ghost use Rattle.records.specs.Records.{the_written_record, the_check_record, the_indexed_record, the_cursor_record};
ghost use Rattle.rules.specs.Bitmap.{lent_as};

use point_records::DataRecord;
use records::{
    CheckRecord, CursorRecord, DisplayRecord, FormRecord, GridRecord, HeaderRecord, IndexedRecord,
    PartRecord, PlaceRecord, PointRecord, WrittenRecord,
};

// The header of a message, with the stored bitmap of a number lent.
#[unsafe(no_mangle)]
pub extern "C" fn grib1_header(message: &[u8], number: u16, store: &[u8]) -> HeaderRecord
    ensures { result ≡ the_header_record (header_of message.now (lent_as number store.now)) }
{
    grib1::grib1_header(message, number, store)
}

// The header, with the values and marks of all points put at the front of the lent lists.
#[unsafe(no_mangle)]
pub extern "C" fn grib1_read(
    message: &[u8],
    number: u16,
    store: &[u8],
    values: &mut [u32],
    marks: &mut [u8],
) -> HeaderRecord
    ensures value { result ≡
        the_header_record
        (read_of message.now (lent_as number store.now) values.old
        marks.old) }
    ensures values_after { values.new ≡
        the_values_after message.now (lent_as number store.now) values.old
        marks.old }
    ensures marks_after { marks.new ≡
        the_marks_after message.now (lent_as number store.now) values.old
        marks.old }
{
    grib1::grib1_read(message, number, store, values, marks)
}

// Which part of the message its section 0 to 5 is.
#[unsafe(no_mangle)]
pub extern "C" fn grib1_section(
    message: &[u8],
    number: u16,
    store: &[u8],
    section: u32,
) -> PartRecord
    ensures { result ≡ the_part_record (section_of message.now (lent_as number store.now) section) }
{
    grib1::grib1_section(message, number, store, section)
}

// Which part of the message or of the lent bitmap the bitmap in force is.
#[unsafe(no_mangle)]
pub extern "C" fn grib1_bitmap(message: &[u8], number: u16, store: &[u8]) -> PartRecord
    ensures { result ≡ the_force_record (bitmap_of message.now (lent_as number store.now)) }
{
    grib1::grib1_bitmap(message, number, store)
}

// R and 2^E as doubles.
#[unsafe(no_mangle)]
pub extern "C" fn grib1_display(message: &[u8], number: u16, store: &[u8]) -> DisplayRecord
    ensures { result ≡ the_display_record (display_of message.now (lent_as number store.now)) }
{
    grib1::grib1_display(message, number, store)
}

// Where a grid point lies on the chart of a grid. Of the grid the shape alone counts, and any will do.
#[unsafe(no_mangle)]
pub extern "C" fn grib1_place(grid: GridRecord, point: u32) -> PlaceRecord
    ensures { result ≡ the_place_record (charted (shape_of (the_grid_back grid)) (record { 0 = point })) }
{
    grib1::grib1_place(grid, point)
}

// The grid point that lies at a place of that chart.
#[unsafe(no_mangle)]
pub extern "C" fn grib1_point(grid: GridRecord, row: u32, column: u32) -> PointRecord
    ensures { result ≡
        the_point_record (pointed (shape_of (the_grid_back grid)) (record { row = row; column = column })) }
{
    grib1::grib1_point(grid, row, column)
}

// How many points a row of that chart has; a row outside the chart has none.
#[unsafe(no_mangle)]
pub extern "C" fn grib1_row(grid: GridRecord, row: u32) -> u32
    ensures { result ≡ the_row_long (shape_of (the_grid_back grid)) row }
{
    grib1::grib1_row(grid, row)
}

// The data number of a grid point of a message.
#[unsafe(no_mangle)]
pub extern "C" fn grib1_data_number(
    message: &[u8],
    number: u16,
    store: &[u8],
    point: u32,
) -> DataRecord
    ensures { result ≡ the_data_record (numbering_of message.now (lent_as number store.now) point) }
{
    grib1::grib1_data_number(message, number, store, point)
}

// Fills the front of a lent index for a message: the ones before each group of grid points.
#[unsafe(no_mangle)]
pub extern "C" fn grib1_index(
    message: &[u8],
    number: u16,
    store: &[u8],
    index: &mut [u32],
) -> IndexedRecord
    ensures value { result ≡
        the_indexed_record (index_of message.now (lent_as number store.now) index.old) }
    ensures index_after { index.new ≡
        the_index_after message.now (lent_as number store.now) index.old }
{
    grib1::grib1_index(message, number, store, index)
}

// The value or absence at a place of a message's chart, by an index.
#[unsafe(no_mangle)]
pub extern "C" fn grib1_cursor(
    message: &[u8],
    number: u16,
    store: &[u8],
    index: &[u32],
    row: u32,
    column: u32,
) -> CursorRecord
    ensures { result ≡
        the_cursor_record
        (cursor_of message.now (lent_as number store.now) index.now
        (record { row = row; column = column })) }
{
    grib1::grib1_cursor(message, number, store, index, row, column)
}

// How many octets the message of a PDS, a form and marks takes, whatever its E, R and values.
#[unsafe(no_mangle)]
pub extern "C" fn grib1_length(
    pds: &[u8],
    form: FormRecord,
    number: u16,
    store: &[u8],
    marks: &[u8],
) -> WrittenRecord
    ensures { result ≡
        the_written_record
        (length_for pds.now (the_form_by form) (lent_as number store.now) marks.now) }
{
    grib1::grib1_length(pds, form, number, store, marks)
}

// Writes the message of a PDS, a form, E and R, and lists of values and marks.
#[unsafe(no_mangle)]
pub extern "C" fn grib1_write(
    pds: &[u8],
    form: FormRecord,
    e: i32,
    r: u32,
    number: u16,
    store: &[u8],
    values: &[u32],
    marks: &[u8],
    out: &mut [u8],
) -> WrittenRecord
    ensures value { result ≡
        the_written_record
        (write_of
        (the_parts pds.now (the_form_by form) (the_scale_by e r) number store.now values.now
        marks.now) out.old) }
    ensures out_after { out.new ≡
        output_after
        (the_parts pds.now (the_form_by form) (the_scale_by e r) number store.now values.now
        marks.now) out.old }
{
    grib1::grib1_write(pds, form, e, r, number, store, values, marks, out)
}

// Judges a message against its source field.
#[unsafe(no_mangle)]
pub extern "C" fn grib1_check(
    message: &[u8],
    number: u16,
    store: &[u8],
    numbers: &[i32],
    marks: &[u8],
    d: i32,
) -> CheckRecord
    ensures { result ≡
        the_check_record
        (check_of message.now (lent_as number store.now)
        (source_as numbers.now marks.now d)) }
{
    grib1::grib1_check(message, number, store, numbers, marks, d)
}

// Packs a source field into a message of a PDS and a form.
#[unsafe(no_mangle)]
pub extern "C" fn grib1_pack(
    pds: &[u8],
    form: FormRecord,
    number: u16,
    store: &[u8],
    numbers: &[i32],
    marks: &[u8],
    d: i32,
    out: &mut [u8],
) -> WrittenRecord
    ensures value { result ≡
        the_written_record
        (pack_of pds.now (the_form_by form) (lent_as number store.now)
        (source_as numbers.now marks.now d) out.old) }
    ensures out_after { out.new ≡
        packed_after pds.now (the_form_by form) (lent_as number store.now)
        (source_as numbers.now marks.now d) out.old }
{
    grib1::grib1_pack(pds, form, number, store, numbers, marks, d, out)
}
