//! The objects that can be read, in the order of their names. If a column or a number in between can only be written,
//! the object has two rows.

/// The numbers from the least to the most.
#[derive(Clone, Copy, PartialEq, Eq)]
pub struct Range {
    pub least: u32,
    pub most: u32,
}

/// An object, or objects of one form. The arcs of a table's entry come before its column.
#[derive(Clone, Copy, PartialEq, Eq)]
pub enum Object {
    /// A scalar: its group and number. The instance ends in 0.
    Scalar(u32, u32),
    /// Scalars: their group and numbers.
    Scalars(u32, Range),
    /// A column: its arcs and its rows.
    Column([u32; 3], Range),
    /// A table with one index: the entry, the columns and the rows.
    OneIndex([u32; 3], Range, Range),
    /// A table with two indices: the entry, the columns, and the first and second index.
    TwoIndices([u32; 3], Range, Range, Range),
}

const PHASES: Range = Range { least: 1, most: 16 };

const GROUPS: Range = Range { least: 1, most: 2 };

const PATTERNS: Range = Range { least: 1, most: 48 };

const SPLITS: Range = Range { least: 1, most: 32 };

const PREEMPTS: Range = Range { least: 1, most: 8 };

const SEQUENCES: Range = Range { least: 1, most: 16 };

const RINGS: Range = Range { least: 1, most: 2 };

/// The arc that ends a scalar's instance.
pub const LAST: Range = Range { least: 0, most: 0 };

/// The objects under asc.
pub const ASC_OBJECTS: [Object; 10] = [
    Object::OneIndex([1, 2, 1], Range { least: 1, most: 23 }, PHASES),
    Object::OneIndex([1, 4, 1], Range { least: 1, most: 10 }, GROUPS),
    // correction mode
    Object::Scalar(4, 2),
    Object::OneIndex([4, 7, 1], Range { least: 1, most: 5 }, PATTERNS),
    Object::TwoIndices([4, 9, 1], Range { least: 1, most: 5 }, SPLITS, PHASES),
    // pattern status, pattern control
    Object::Scalar(4, 10),
    Object::Scalar(4, 14),
    Object::OneIndex([6, 2, 1], Range { least: 1, most: 1 }, PREEMPTS),
    Object::OneIndex([6, 2, 1], Range { least: 4, most: 15 }, PREEMPTS),
    Object::TwoIndices([7, 3, 1], Range { least: 1, most: 3 }, SEQUENCES, RINGS),
];

/// The objects under own.
pub const OWN_OBJECTS: [Object; 5] = [
    // the stage's state; its last outcome, rule and row, and the version
    Object::Scalar(1, 1),
    Object::Scalars(1, Range { least: 7, most: 10 }),
    // clock, counter, target, mode code
    Object::Scalars(2, Range { least: 1, most: 4 }),
    // limits of the correction, backup time, extension limit, force mode, offset reference
    Object::Scalars(3, Range { least: 1, most: 7 }),
    // the states of the priority requests
    Object::Column([4, 3, 1], Range { least: 1, most: 10 }),
];
