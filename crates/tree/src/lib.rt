// The tree of a job: the job itself and each job whose owner is in the tree, as a set of positions.
#![tactic(auto)]

ghost use Rattle.std.specs.Prelude.{◌≡◌, ◌<◌};
ghost use Rattle.picture.specs.Layout.{positions};
ghost use Rattle.picture.specs.Numbers.{tag_weight};
ghost use Rattle.picture.specs.declared.Table.TheVariants.{Jobs};
ghost use Rattle.tree.specs.Tree.{climbs, tree, in_tree};

use picture::{JOBS, Table};
use words::word;

// From position k one reaches position t by at most as many owners as there are positions.
pub fn climbs_to(p: &[u32], t: usize, k: usize) -> bool
    requires { k < tag_weight }
    ensures { result ≡ climbs (positions Jobs) p.now t k }
{
    let mut j = k;
    for _ in 0..JOBS {
        if j == t {
            return true;
        }
        let owner = word(
            p,
            picture::FIRST_JOB + picture::JOB_WIDTH * j + picture::OWNER,
        );
        if owner == picture::NOBODY {
            return false;
        }
        j = picture::position_of(owner);
    }
    j == t
}

// The job at position k is live and in the tree of the job at position t.
#[tactic(auto, unfolding(crate::specs::Tree::in_tree))]
pub fn is_in_tree(p: &[u32], t: usize, k: usize) -> bool
    requires { k < tag_weight }
    ensures { result ≡ in_tree p.now t k }
{
    if picture::is_used(p, Table::Jobs, k) {
        return climbs_to(p, t, k);
    }
    false
}

// The positions of the tree of the job at position t.
#[tactic(auto, unfolding(crate::specs::Tree::tree))]
pub fn tree_of(p: &[u32], t: usize) -> u64
    ensures { result ≡ tree p.now t }
{
    masks::positions_passing(JOBS, |k| is_in_tree(p, t, k))
}
