//! How the code keeps a tree: by its weight and its least entry, which also give the order of trees.

ghost use Rattle.std.specs.Prelude.{◌≡◌, ◌+◌, ◌^◌, ◌<◌};
ghost use Rattle.exr_merging.specs.Steps.{root_before, root_key, merge_of, merged_root};

/// A tree by its weight and its least entry.
#[derive(Clone, Copy)]
pub(crate) struct Root {
    pub(crate) least: u32,
    pub(crate) weight: u32,
}

impl Root {
    /// One number for the order, by which a sort needs one comparison: the weight and then the least entry.
    pub(crate) fn key(self) -> u64
        ensures { result ≡ root_key self }
    {
        self.weight as u64 * (1 << 32) + self.least as u64
    }

    /// Whether this tree comes before another: by weight, and of one weight by the least entry.
    pub(crate) fn comes_before(self, other: Root) -> bool
        ensures { result ≡ root_before self other }
    {
        self.weight < other.weight || (self.weight == other.weight && self.least < other.least)
    }
}

/// Two trees that were merged, by their least entries, and what they weigh together.
#[derive(Clone, Copy)]
pub(crate) struct Merge {
    pub(crate) first: u32,
    pub(crate) second: u32,
    pub(crate) weight: u32,
}

impl Merge {
    /// The merging of two trees.
    pub(crate) fn new(first: Root, second: Root) -> Merge
        requires { first.weight + second.weight < 2 ^ 32 }
        ensures { result ≡ merge_of first second }
    {
        Merge {
            first: first.least,
            second: second.least,
            weight: first.weight + second.weight,
        }
    }

    /// The merged tree.
    pub(crate) fn root(self) -> Root
        ensures { result ≡ merged_root self }
    {
        Root {
            least: self.first.min(self.second),
            weight: self.weight,
        }
    }
}
