// The cut sheet: for each side in order the lengths of X, Y and Z of its word and their number of pieces, one byte each (document 01, "The cut sheet").
#![tactic(auto)]

ghost use Rattle.std.specs.Prelude.{◌*◌, ◌≡◌};
ghost use Rattle.words.specs.Writing.{written, over};
ghost use Rattle.limits.specs.Limits.{sheet_columns};
ghost use Rattle.layout.specs.Families.{side_word_of};
ghost use Rattle.sheet.specs.Sheet.{CutsIn, RowRoom, SheetRoom, row_at, sheet_bytes};

use limits::Sheet;

// The row of relation word i: the lengths of its X, Y and Z, by the table's positions, and its number of pieces.
fn row_of(table: &[u16], i: usize) -> [u8; Sheet::COLUMNS]
    requires { CutsIn table.now i }
    ensures { result ≡ row_at table.now i }
{
    let x_end = layout::x_end_of(table, i);
    let z_start = layout::z_start_of(table, i);
    [
        (x_end - layout::start_of(table, i)) as u8,
        (z_start - x_end) as u8,
        (layout::end_of(table, i) - z_start) as u8,
        layout::pieces_of(table, i) as u8,
    ]
}

// Writes the row of side s in its place: that of its word.
fn write_row(table: &[u16], s: usize, sheet: &mut [u8])
    requires { RowRoom table.now s sheet.old }
    ensures { sheet.new ≡ written (sheet_columns * s) (row_at table.now (side_word_of table.now s)) sheet.old }
{
    let i = layout::side_word(table, s);
    writing::put_bytes(&row_of(table, i), sheet, Sheet::COLUMNS * s);
}

// Writes the sheet of m sides at the start of a lent buffer.
#[tactic(auto, using(crate::proofs::Laws::sheets))]
pub fn write_sheet(table: &[u16], m: usize, sheet: &mut [u8])
    requires { SheetRoom table.now m sheet.old }
    ensures { sheet.new ≡ over (sheet_bytes table.now m) sheet.old }
{
    for s in 0..m {
        write_row(table, s, sheet);
    }
}
