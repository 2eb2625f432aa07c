//! The parameter sets by their typecodes (RFC 8554, 4.1 and 5.1).

ghost use Rattle.std.specs.Prelude.{◌≡◌, ℕ, ◌+◌, ◌*◌, ◌^◌, ◌<◌, ◌≤◌, length};
ghost use Rattle.lms_verify.specs.LmOts.{candidate};
ghost use Rattle.lms_verify.specs.Rows.{AreRows};
ghost use Rattle.lms_verify.specs.Lms.{leaf, node_over, ots_w, ots_p, ots_ls, lms_h};

use crate::lm_ots::{Id, candidate};
use crate::lms::root;

// The call of a function that is generic by the row of a typecode's table.
macro_rules! by_type {
    ($kind:expr, $f:ident $args:tt; $($kinds:literal: $row:tt),+) => {
        match $kind {
            $($kinds => by_type!(@ $f $row $args),)+
            _ => unreachable!(),
        }
    };
    (@ $f:ident ($($n:literal),+) ($($arg:expr),+)) => {
        $f::<$($n),+>($($arg),+)
    };
}

// How many chains the one-time signatures of a type have.
pub fn chains(kind: u32) -> usize
    ensures value { result ≡ ots_p kind }
    ensures few { result ≤ 265 }
{
    match kind {
        1 => 265,
        2 => 133,
        3 => 67,
        _ => 34,
    }
}

// The height of the trees of a type.
pub fn height(kind: u32) -> usize
    ensures value { result ≡ lms_h kind }
    ensures low { result ≤ 25 }
{
    match kind {
        5 => 5,
        6 => 10,
        7 => 15,
        8 => 20,
        _ => 25,
    }
}

// The public key candidate of a one-time signature of a type.
pub fn one_time_key(kind: u32, id: &Id, q: u32, c: &[u8], y: &[u8], message: &[u8]) -> [u8; 32]
    requires low { 1 ≤ kind }
    requires high { kind ≤ 4 }
    requires whole { length y.now ≡ 32 * ots_p kind }
    ensures { result
        ≡ candidate (ots_w kind) (ots_p kind) (ots_ls kind) id.now q c.now y.now message.now }
{
    by_type!(kind, candidate (id, q, c, y, message);
        1: (1, 265, 7), 2: (2, 133, 6), 3: (4, 67, 4), 4: (8, 34, 0))
}

// The root of a tree of a type over a one-time key.
pub fn tree_root(kind: u32, id: &Id, q: u32, path: &[u8], key: &[u8; 32]) -> [u8; 32]
    requires low { 5 ≤ kind }
    requires high { kind ≤ 9 }
    requires leaf { q < 2 ^ lms_h kind }
    requires whole { length path.now ≡ 32 * lms_h kind }
    ensures { let r = 2 ^ lms_h kind + q in
        result ≡ node_over id.now r path.now (leaf id.now r key.now) (lms_h kind) }
{
    by_type!(kind, root (id, q, path, key); 5: (5), 6: (10), 7: (15), 8: (20), 9: (25))
}

/// The rows of the table are those that RFC 8554, Appendix B, derives.
pub fn rows_are_derived()
    ensures { AreRows }
{}
