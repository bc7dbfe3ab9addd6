// The index of places as it is lent. It stands in a file of its own, since what is said of it in specs/ names it.
ghost use Rattle.std.specs.Prelude.{◌<◌};

// An entry of the index: the first place of a stride where an instruction begins, and how many kept numbers stand before that.
#[derive(Clone, Copy)]
pub struct Stride {
    pub begin: usize,
    pub new: usize,
}

// The index, and how wide its strides are. `split` ends the front, `front` is how many numbers of it are kept.
#[derive(Clone, Copy)]
pub struct Places<'a> {
    pub index: &'a [Stride],
    pub stride: usize,
    pub split: usize,
    pub front: usize,
    ghost positive: { 0 < stride },
}
