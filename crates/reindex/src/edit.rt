// Edits of the table of nodes, by places.

// What an edit does with the nodes.
// Kept: data and no step: the index follows the places, which a closure would hide from the definitions.
#[derive(Clone, Copy)]
pub enum Edit {
    // Those from one place up to another are taken out.
    Cut(usize, usize),
    // The same, and one new node stands there.
    Put(usize, usize),
    // Two runs change places: from the first place up to the second, and on up to the third.
    Swap(usize, usize, usize),
}
