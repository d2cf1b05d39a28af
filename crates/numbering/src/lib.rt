// The numbers of features: how many there are, the number of each, and back from a number to the atoms of its feature.

#![tactic(auto)]

ghost use Rattle.std.specs.Prelude.{◌≡◌, ◌≢◌, ◌+◌, ◌^◌, ◌<◌, ◌≤◌, length};
ghost use Rattle.meaning.specs.Task.{size};
ghost use Rattle.meaning.specs.Feature.{atoms, features, single, pair_start, both};
ghost use Rattle.numbering.specs.Sizes.{SmallSizes};
ghost use Rattle.numbering.specs.Blocks.{From};
ghost use Rattle.numbering.specs.Planes.{number_in, Spans};
ghost use Rattle.numbering.specs.Order.{Stands, Follows, Contains, Joins};

// Where the features of two variables stand: the number of the one with both values 0, and how far a step of each value leads.
#[derive(Clone, Copy)]
pub struct Plane {
    pub first: usize,
    pub step: usize,
    pub other: usize,
}

// How many atoms the variables from a first one on have, and those from a second one on.
#[derive(Clone, Copy)]
struct Rests {
    first: usize,
    second: usize,
}

// The features of two variables in order as a block of numbers, from `start` to right before `end`. A variable with itself has an empty one,
// right before its block with the next variable.
#[derive(Clone, Copy)]
pub struct Block {
    pub first: usize,
    pub second: usize,
    pub start: usize,
    pub end: usize,
}

// A value of a block's first variable, and one of its second.
#[derive(Clone, Copy)]
pub struct Values {
    pub first: usize,
    pub second: usize,
}

// The size of variable i.
pub fn size(sizes: &[u64], i: usize) -> usize
    requires { i < length sizes.now }
    ensures { result ≡ size sizes.now i }
{
    sizes[i] as usize
}

// How many single atoms there are: A.
pub fn atoms(sizes: &[u64]) -> usize
    requires { SmallSizes sizes.now }
    ensures { result ≡ atoms sizes.now }
{
    sizes.iter().sum::<u64>() as usize
}

// How many features there are: N. Each variable adds its atoms, and its pairs with the atoms before them.
pub fn features(sizes: &[u64]) -> usize
    requires { SmallSizes sizes.now }
    ensures { result ≡ features sizes.now }
{
    let mut atoms = 0;
    let mut pairs = 0;
    for size in sizes {
        let d = *size as usize;
        pairs += atoms * d;
        atoms += d;
    }
    atoms + pairs
}

// The number of the atom that gives variable i the value x.
pub fn single(sizes: &[u64], i: usize, x: usize) -> usize
    requires { SmallSizes sizes.now × (i < length sizes.now) × (x < size sizes.now i) }
    ensures { result ≡ single sizes.now i x }
{
    atoms(&sizes[..i]) + x
}

// How many atoms the variables from i on have, and those from j on: one pass from the last variable to variable i.
fn atoms_from(sizes: &[u64], i: usize, j: usize) -> Rests
    requires { SmallSizes sizes.now × (i < j) × (j < length sizes.now) }
    ensures { From sizes.now i result.first × From sizes.now j result.second }
{
    let mut sum = 0;
    let mut second = 0;
    for k in (i..sizes.len()).rev() {
        sum += size(sizes, k);
        if k == j {
            second = sum;
        }
    }
    Rests { first: sum, second }
}

// The number of the first feature of variables i < j. All atoms stand before it, the pairs of i with the variables between the two, and those of each
// variable before i with all behind it.
fn first_pair(sizes: &[u64], i: usize, j: usize) -> usize
    requires { SmallSizes sizes.now × (i < j) × (j < length sizes.now) }
    ensures { result ≡ atoms sizes.now + pair_start sizes.now i j }
{
    let rests = atoms_from(sizes, i, j);
    let own = size(sizes, i);
    let mut pairs = own * (rests.first - (own + rests.second));
    let mut behind = rests.first;
    for k in (0..i).rev() {
        let d = size(sizes, k);
        pairs += d * behind;
        behind += d;
    }
    behind + pairs
}

// The features of two variables, either way round: a step of the lower variable's value passes all values of the other one.
pub fn plane_of(sizes: &[u64], i: usize, j: usize) -> Plane
    requires { SmallSizes sizes.now × (i ≢ j) × (i < length sizes.now) × (j < length sizes.now) }
    ensures { Spans sizes.now i j (both sizes.now) result }
{
    let first = first_pair(sizes, i.min(j), i.max(j));
    if i < j {
        Plane {
            first,
            step: size(sizes, j),
            other: 1,
        }
    } else {
        Plane {
            first,
            step: 1,
            other: size(sizes, i),
        }
    }
}

// The number of the feature with the values x and y.
pub fn number(plane: Plane, x: usize, y: usize) -> usize
    requires { number_in plane x y < 2 ^ 64 }
    ensures { result ≡ number_in plane x y }
{
    plane.first + (x * plane.step + y * plane.other)
}

// The number of the feature of value x of variable i and value y of variable j.
pub fn both(sizes: &[u64], i: usize, x: usize, j: usize, y: usize) -> usize
    requires { SmallSizes sizes.now × (i ≢ j) × (i < length sizes.now) × (j < length sizes.now) × (x < size sizes.now i) × (y < size sizes.now j) }
    ensures { result ≡ both sizes.now i x j y }
{
    number(plane_of(sizes, i, j), x, y)
}

// The empty block right before all others.
pub fn first_block(sizes: &[u64]) -> Block
    requires { SmallSizes sizes.now × (0 < length sizes.now) }
    ensures { Stands sizes.now result × (result.start ≡ atoms sizes.now) }
{
    let all = atoms(sizes);
    Block {
        first: 0,
        second: 0,
        start: all,
        end: all,
    }
}

// The next block: of the next second variable, or the empty one of the next first variable.
fn next_block(sizes: &[u64], block: Block) -> Block
    requires { SmallSizes sizes.now × Stands sizes.now block × (block.end < features sizes.now) }
    ensures { Follows sizes.now block result }
{
    let second = block.second + 1;
    if second < sizes.len() {
        return Block {
            first: block.first,
            second,
            start: block.end,
            end: block.end + size(sizes, block.first) * size(sizes, second),
        };
    }
    let first = block.first + 1;
    Block {
        first,
        second: first,
        start: block.end,
        end: block.end,
    }
}

// The block of feature f, from one that stands no later on.
pub fn block_at(sizes: &[u64], block: Block, f: usize) -> Block
    requires { SmallSizes sizes.now × Stands sizes.now block × (block.start ≤ f) × (f < features sizes.now) }
    ensures { Contains sizes.now result f }
{
    let mut here = block;
    while here.end <= f {
        here = next_block(sizes, here);
    }
    here
}

// The values of a block's variables in feature f.
pub fn values_in(sizes: &[u64], block: Block, f: usize) -> Values
    requires { Contains sizes.now block f }
    ensures { Joins sizes.now f block.first result.first block.second result.second }
{
    let d = size(sizes, block.second);
    let place = f - block.start;
    Values {
        first: place / d,
        second: place % d,
    }
}
