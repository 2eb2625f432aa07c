//! The verdict on a key, a message and a signature (RFC 8391, 4.2.5).

ghost use Rattle.std.specs.Prelude.{◌≡◌, ℕ, true, ◌+◌, ◌*◌, ◌/◌, ◌^◌, ◌<◌, ◌≤◌, length, take, drop};
ghost use Rattle.xmss_definitions.specs.Address.{Tree};
ghost use Rattle.xmss_definitions.specs.Keys.{u32_at, seed_of};
ghost use Rattle.xmss_definitions.specs.Nodes.{root_from};
ghost use Rattle.xmssmt_verify.specs.XmssMt.{is_known, index_size, index_of, layer_size, is_signature, root_over, root_under, verdict_under, verdict};

use crate::hashes::{Prf, message_digest};
use crate::tree::{l_tree, root};
use crate::wots::ends;
use crate::{Verdict, Why};

// The number of the four octets from place `at`.
#[tactic(auto, unfolding(xmss_definitions::specs::Keys::u32_at))]
fn u32_at(bytes: &[u8], at: usize) -> u32
    requires { at + 4 ≤ length bytes.now }
    ensures { result ≡ u32_at bytes.now at }
{
    u32::from_be_bytes([bytes[at], bytes[at + 1], bytes[at + 2], bytes[at + 3]])
}

// Whether the key's set is in the table.
#[tactic(auto, unfolding(crate::specs::XmssMt::is_known))]
fn is_known(key: &[u8]) -> bool
    requires { length key.now ≡ 68 }
    ensures { result ≡ is_known key.now }
{
    let set = u32_at(key, 0);
    1 <= set && set <= 8
}

// The leaf number of a signature under a key of height `H`.
#[tactic(auto, unfolding(crate::specs::XmssMt::index_of))]
fn index_of<const H: usize>(signature: &[u8]) -> u64
    requires few { H < 64 }
    requires whole { index_size H ≤ length signature.now }
    ensures { result ≡ index_of H signature.now }
{
    let size = H.div_ceil(8);
    let mut octets = [0u8; 8];
    octets[8 - size..].copy_from_slice(&signature[..size]);
    u64::from_be_bytes(octets)
}

// How many leaves a tree of this height has.
fn leaves(height: usize) -> u64
    requires { height < 64 }
    ensures { result ≡ 2 ^ height }
{
    1 << height
}

// Whether the octets are a signature of height `H` and `D` layers.
#[tactic(auto, unfolding(crate::specs::XmssMt::is_signature))]
fn is_signature<const H: usize, const D: usize>(signature: &[u8]) -> bool
    requires few { H < 64 }
    requires some { 0 < D }
    requires layers { D ≤ 12 }
    ensures { result ≡ is_signature H D signature.now }
{
    signature.len() == H.div_ceil(8) + 32 + D * (32 * (67 + H / D))
        && index_of::<H>(signature) < leaves(H)
}

// The root to which a layer's part of a signature leads, in a tree of this height.
#[tactic(auto, unfolding(xmss_definitions::specs::Nodes::root_from))]
fn layer_root(prf: &Prf, height: usize, leaf: u32, digest: &[u8; 32], own: &[u8]) -> [u8; 32]
    requires few { height < 64 }
    requires whole { length own.now ≡ layer_size height }
    ensures { result
        ≡ root_from height prf.now leaf digest.now (take (32 * 67) own.now) (drop (32 * 67) own.now) }
{
    let (ots, path) = own.split_at(32 * 67);
    let value = l_tree(prf, leaf, ends(prf, leaf, digest, ots));
    root(prf, height, leaf, path, &value)
}

// The root of the highest of `count` layers, whose trees have this height.
#[tactic(auto, using(crate::proofs::Shape::root_over_none, crate::proofs::Shape::above_none))]
fn root_over(
    seed: &[u8; 32],
    height: usize,
    count: usize,
    idx: u64,
    digest: &[u8; 32],
    layers: &[u8],
) -> [u8; 32]
    requires few { height < 31 }
    requires layers { count ≤ 12 }
    requires whole { length layers.now ≡ count * layer_size height }
    ensures { result ≡ root_over height seed.now idx digest.now layers.now count }
{
    let prf = Prf::new(seed, 0, 0);
    let size = 32 * (67 + height);
    let mut value = *digest;
    let mut rest = idx;
    'layers: for layer in 0..count {
        let leaf = (rest % leaves(height)) as u32;
        rest /= leaves(height);
        let own = &layers[size * layer..size * layer + size];
        value = layer_root(&prf.in_tree(layer as u32, rest), height, leaf, &value, own);
    }
    value
}

// The root that a signature of height `H` and `D` layers gives.
#[tactic(auto, unfolding(crate::specs::XmssMt::root_under))]
fn root_under<const H: usize, const D: usize>(
    key: &[u8],
    message: &[u8],
    signature: &[u8],
) -> [u8; 32]
    requires few { H < 64 }
    requires low { H / D < 31 }
    requires some { 0 < D }
    requires layers { D ≤ 12 }
    requires key { length key.now ≡ 68 }
    requires whole { length signature.now ≡ index_size H + 32 + D * layer_size (H / D) }
    ensures { result ≡ root_under H D key.now message.now signature.now }
{
    let mut seed = [0u8; 32];
    seed.copy_from_slice(&key[36..68]);
    let idx = index_of::<H>(signature);
    let size = H.div_ceil(8);
    let digest = message_digest(&signature[size..size + 32], &key[4..36], idx, message);
    let layers = &signature[size + 32..];
    root_over(&seed, H / D, D, idx, &digest, layers)
}

// The verdict under a known key of height `H` and `D` layers.
#[tactic(auto, using(crate::proofs::Shape::long), unfolding(crate::specs::XmssMt::verdict_under))]
fn verify_under<const H: usize, const D: usize>(
    key: &[u8],
    message: &[u8],
    signature: &[u8],
) -> Verdict
    requires few { H < 64 }
    requires low { H / D < 31 }
    requires some { 0 < D }
    requires layers { D ≤ 12 }
    requires key { length key.now ≡ 68 }
    ensures { result ≡ verdict_under H D key.now message.now signature.now }
{
    if !is_signature::<H, D>(signature) {
        return Verdict::Bad(Why::SignatureShape);
    }
    let got = root_under::<H, D>(key, message, signature);
    let mut want = [0u8; 32];
    want.copy_from_slice(&key[4..36]);
    if got == want {
        Verdict::Good
    } else {
        Verdict::Bad(Why::RootDiffers { got, want })
    }
}

// The call of a function that is generic by the height and the layers of a set.
macro_rules! by_set {
    ($set:expr, $f:ident $args:tt; $($sets:literal: $row:tt),+) => {
        match $set {
            $($sets => by_set!(@ $f $row $args),)+
            _ => unreachable!(),
        }
    };
    (@ $f:ident ($h:literal, $d:literal) ($($arg:expr),+)) => {
        $f::<$h, $d>($($arg),+)
    };
}

/// The verdict on an XMSS^MT key, a message and a signature.
#[tactic(auto, unfolding(crate::specs::XmssMt::verdict, crate::specs::XmssMt::is_known))]
pub fn verify(key: &[u8], message: &[u8], signature: &[u8]) -> Verdict
    ensures { result ≡ verdict key.now message.now signature.now }
{
    if key.len() != 68 {
        return Verdict::Bad(Why::KeyShape);
    }
    if !is_known(key) {
        return Verdict::Bad(Why::UnknownSet);
    }
    let set = u32_at(key, 0);
    by_set!(set, verify_under (key, message, signature);
        1: (20, 2), 2: (20, 4),
        3: (40, 2), 4: (40, 4), 5: (40, 8),
        6: (60, 3), 7: (60, 6), 8: (60, 12))
}
