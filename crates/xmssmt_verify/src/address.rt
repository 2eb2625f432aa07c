//! Addresses: where in a tree a hash stands (RFC 8391, section 2.5).

ghost use Rattle.std.specs.Prelude.{◌≡◌, ℕ, ◌+◌, ◌≤◌, ◌++◌, length, take, drop};
ghost use Rattle.xmss_definitions.specs.Address.{word, place_octets, address_octets};
ghost use Rattle.xmssmt_verify.specs.Places.{place_of};

/// What an address names: its type, and three words that tell which of that type.
#[derive(Clone, Copy, Debug, PartialEq, Eq)]
pub enum Place {
    /// Type 0: step `step` of chain `chain` of a leaf's one-time signature.
    ChainStep { leaf: u32, chain: u32, step: u32 },
    /// Type 1: pair `index` of the L-tree over a leaf, `height` counted from the chains' ends.
    LTreePair { leaf: u32, height: u32, index: u32 },
    /// Type 2: pair `index` of the tree, `height` counted from the leaves.
    TreePair { height: u32, index: u32 },
}

/// An address but for its last word, keyAndMask.
#[derive(Clone, Copy, Debug, PartialEq, Eq)]
pub struct Address {
    pub layer: u32,
    pub tree: u64,
    pub place: Place,
}

// Writes a part over octets from place `at` on.
fn put(octets: &mut [u8], at: usize, part: &[u8])
    requires { at + length part.now ≤ length octets.old }
    ensures { octets.new ≡ take at octets.old ++ (part.now ++ drop (at + length part.now) octets.old) }
{
    octets[at..at + part.len()].copy_from_slice(part);
}

// A type and its three words.
fn words(kind: u32, first: u32, second: u32, third: u32) -> [u8; 16]
    ensures { result ≡ word kind ++ word first ++ word second ++ word third }
{
    let mut octets = [0u8; 16];
    put(&mut octets, 0, &kind.to_be_bytes());
    put(&mut octets, 4, &first.to_be_bytes());
    put(&mut octets, 8, &second.to_be_bytes());
    put(&mut octets, 12, &third.to_be_bytes());
    octets
}

impl Place {
    // The type and the words.
    fn octets(self) -> [u8; 16]
        ensures { result ≡ place_octets (place_of self) }
    {
        match self {
            Place::ChainStep { leaf, chain, step } => words(0, leaf, chain, step),
            Place::LTreePair {
                leaf,
                height,
                index,
            } => words(1, leaf, height, index),
            Place::TreePair { height, index } => words(2, 0, height, index),
        }
    }
}

impl Address {
    /// The 32 octets of the address with this keyAndMask.
    pub fn octets(self, mask: u32) -> [u8; 32]
        ensures { result ≡ address_octets self.layer self.tree (place_of self.place) mask }
    {
        let mut octets = [0u8; 32];
        put(&mut octets, 0, &self.layer.to_be_bytes());
        put(&mut octets, 4, &self.tree.to_be_bytes());
        put(&mut octets, 12, &self.place.octets());
        put(&mut octets, 28, &mask.to_be_bytes());
        octets
    }
}
