// Grid points and data points, two types of number. A data point is made from a grid point only here, through the
// bitmap or through its absence. All total.
#![tactic(auto)]

ghost use Rattle.std.specs.Prelude.{◌≡◌, ◌<◌};
ghost use Rattle.rules.specs.Bitmap.{present_by, lent_as};
ghost use Rattle.rules.specs.Points.{the_data_number};
ghost use Rattle.rules.specs.Reading.{numbering_of};
ghost use Rattle.bitmap.specs.Held.{bits_from};
ghost use Rattle.data_numbers.specs.Told.{told, always};

use message::header;
use rules::{Bitmap, GridPoint};
use runs::{bit, ones};

// A present point's number among the present ones.
#[derive(Clone, Copy)]
pub struct DataPoint(u32);

// What is said of a grid point.
#[derive(Clone, Copy)]
pub enum Numbered {
    Present(DataPoint),
    Absent,
    Outside,
}

impl DataPoint {
    // The number itself.
    pub fn number(self) -> u32
        ensures { result ≡ self.0 }
    {
        self.0
    }
}

// "A present grid point's data number is the count of ones before it in the bitmap", whose n bits start at octet p.
fn counted(s: &[u8], p: usize, n: u32, i: u32) -> Numbered
    requires { p < 8589934592 }
    ensures { told result ≡ the_data_number (bits_from s.now p) n i }
{
    if i < n {
        if bit(s, p, i) == 1 {
            return Numbered::Present(DataPoint(ones(s, p, i)));
        }
        return Numbered::Absent;
    }
    Numbered::Outside
}

// "or its own number where there is no bitmap".
fn itself(n: u32, i: u32) -> Numbered
    ensures { told result ≡ the_data_number always n i }
{
    if i < n {
        return Numbered::Present(DataPoint(i));
    }
    Numbered::Outside
}

// The data point of a grid point of n, by a bitmap and its octets.
pub fn data_of(bitmap: Bitmap, bits: &[u8], n: u32, k: GridPoint) -> Numbered
    ensures { told result ≡ the_data_number (present_by bitmap bits.now) n k.0 }
{
    match bitmap {
        Bitmap::Without => itself(n, k.0),
        Bitmap::Carried => counted(bits, 0, n, k.0),
        Bitmap::Stored(_) => counted(bits, 0, n, k.0),
    }
}

// The data point of a grid point of a message; a refused message has no points.
pub fn data_number(s: &[u8], number: u16, store: &[u8], k: GridPoint) -> Numbered
    ensures { told result ≡ numbering_of s.now (lent_as number store.now) k.0 }
{
    match header(s, number, store) {
        Err(_) => Numbered::Outside,
        Ok(h) => {
            let bitmap = h.bitmap;
            match bitmap {
                Bitmap::Without => itself(h.points, k.0),
                Bitmap::Carried => counted(s, h.places.bms.start as usize + 6, h.points, k.0),
                Bitmap::Stored(_) => counted(store, 0, h.points, k.0),
            }
        }
    }
}
