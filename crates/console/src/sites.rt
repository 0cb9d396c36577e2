// Sites and sheets, for C.
ghost use Rattle.std.specs.Prelude.{◌≡◌, length};
ghost use Rattle.console.specs.Status.{status, value};
ghost use Rattle.squares.specs.Replies.{site_reply, sheet_reply, sheet_bytes, sheet3_reply, sheet3_bytes};
ghost use Rattle.sheets.specs.Replies.{check_sheet_reply};

use crate::answers::status;

// Both symbols at a site.
#[unsafe(no_mangle)]
pub extern "C" fn dw_site(
    n: u32,
    f: u32,
    g: u32,
    row: u32,
    col: u32,
    first: &mut u32,
    second: &mut u32,
) -> u32
    ensures value { result ≡ status (site_reply n f g row col) }
    ensures first_after { first.new ≡ value 0 (site_reply n f g row col) first.old }
    ensures second_after { second.new ≡ value 1 (site_reply n f g row col) second.old }
{
    match squares::site(n, f, g, row, col) {
        Ok(symbols) => {
            *first = symbols.first;
            *second = symbols.second;
            0
        }
        Err(refusal) => refusal.number(),
    }
}

// The sheet of f and g, into the first 2 × 4^n bytes lent.
#[unsafe(no_mangle)]
pub extern "C" fn dw_sheet(n: u32, f: u32, g: u32, out: &mut [u8]) -> u32
    ensures value { result ≡ status (sheet_reply n f g (length out.old)) }
    ensures out_after { out.new ≡ sheet_bytes n f g out.old }
{
    status(squares::sheet(n, f, g, out))
}

// The sheet of f, g and h, into the first 3 × 4^n bytes lent.
#[unsafe(no_mangle)]
pub extern "C" fn dw_sheet3(n: u32, f: u32, g: u32, h: u32, out: &mut [u8]) -> u32
    ensures value { result ≡ status (sheet3_reply n f g h (length out.old)) }
    ensures out_after { out.new ≡ sheet3_bytes n f g h out.old }
{
    status(squares::sheet3(n, f, g, h, out))
}

// Whether a sheet of any order from 3 to 64 is two orthogonal Latin squares laid together.
#[unsafe(no_mangle)]
pub extern "C" fn dw_check_sheet(order: u32, sheet: &[u8]) -> u32
    ensures { result ≡ status (check_sheet_reply order sheet.now) }
{
    status(sheets::check_sheet(order, sheet))
}
