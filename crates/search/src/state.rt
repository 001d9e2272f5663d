// The state of the search.
ghost use Rattle.std.specs.Prelude.{◌≡◌, ◌<◌, ℕ, length, slice_index};

// The best cost to each lane, the lane it was reached from, and whether it is closed: taken, and its links relaxed. No heap is kept: the open
// lane of least `dist` is what the Rust would pop (`heap_form`, crate optimality). It is handed on by value at each step; a link is relaxed in
// place, which saves two copies for each. Arrays beside one another and no array of structs: document 01 asks for this form (docs/DECISIONS.md,
// "Forms by place").
#[derive(Clone, Copy)]
pub struct Search {
    pub dist: [f32; 256],
    pub prev: [u8; 256],
    pub closed: [bool; 256],
    // each array has its entries, and each predecessor is a row of these arrays
    pub ghost dists: { length dist ≡ 256 },
    pub ghost prevs: { length prev ≡ 256 },
    pub ghost marks: { length closed ≡ 256 },
    pub ghost inside: { (k : ℕ) → slice_index prev k < 256 },
}
