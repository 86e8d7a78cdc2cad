// Whether four tables make a map.
ghost use Rattle.std.specs.Prelude.{◌≡◌, ◌<◌, ◌≤◌, length};
ghost use Rattle.listed.specs.Tables.{tables, questions, right_first, right_target};
ghost use Rattle.map.specs.Counts.{lowest_no};
ghost use Rattle.map.specs.Questions.{first_no};

use crate::fault::ListedFault;
use map::read::lowest_no;

// Whether entry i of the firsts is as it should be, where there are `count` targets.
fn first_is_right(firsts: &[u32], count: usize, i: usize) -> bool
    requires { i < length firsts.now }
    ensures { result ≡ right_first firsts.now count i }
{
    let first = firsts[i];
    if i == 0 && first != 0 {
        return false;
    }
    if i > 0 && first < firsts[i - 1] {
        return false;
    }
    i + 1 < firsts.len() || (first as usize == count && count <= 32768)
}

// The lowest entry of the firsts that is not as it should be. By index: each is asked with the one before it.
fn wrong_first(firsts: &[u32], count: usize) -> Option<u32>
    requires { length firsts.now ≤ 4097 }
    ensures { result ≡ lowest_no (right_first firsts.now count) (length firsts.now) }
{
    lowest_no(
        firsts.len() as u32,
        |i| first_is_right(firsts, count, i as usize),
    )
}

// The lowest entry of the targets that is none of `size` states.
fn wrong_target(targets: &[u32], size: usize) -> Option<u32>
    requires { length targets.now ≤ 32768 }
    ensures { result ≡ lowest_no (right_target targets.now size) (length targets.now) }
{
    lowest_no(
        targets.len() as u32,
        |k| (targets[k as usize] as usize) < size,
    )
}

// What is wrong with the tables, if anything.
pub(crate) fn table_fault<L>(
    looks: &[L],
    starts: &[u8],
    firsts: &[u32],
    targets: &[u32],
) -> Option<ListedFault>
    ensures { result ≡ first_no (questions (tables looks.now starts.now firsts.now targets.now)) }
{
    let size = looks.len();
    if size > 4096 {
        return Some(ListedFault::TooManyLooks);
    }
    if starts.len() != size || firsts.len() != size + 1 {
        return Some(ListedFault::WrongLengths);
    }
    if let Some(i) = wrong_first(firsts, targets.len()) {
        return Some(ListedFault::WrongFirst(i));
    }
    if let Some(k) = wrong_target(targets, size) {
        return Some(ListedFault::WrongTarget(k));
    }
    None
}
