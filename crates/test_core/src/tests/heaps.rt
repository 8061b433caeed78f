ghost use Rattle.std.specs.Prelude.{IfSome};
ghost use Rattle.mark_core.specs.Shapes.{IsShape};

use mark_core::Shape;

/// One block of four cards, two packets of two entries, two sections, and one field an object.
const ONE: Shape = Shape {
    cells: 64,
    packets: 2,
    entries: 2,
    sections: 2,
    fields: 1,
    objects: 2_000_000,
    sharing: false,
    slots: 0,
    stretch: 1,
};

/// Two blocks, which three sections share.
const SHARED: Shape = Shape {
    cells: 128,
    sections: 3,
    objects: 1_000,
    sharing: true,
    ..ONE
};

/// The shape of that name.
pub fn shape_of(name: &str) -> Option<Shape>
    ensures { IfSome result IsShape }
{
    match name {
        "one" => Some(ONE),
        "small" => Some(Shape { fields: 4, ..ONE }),
        // one packet more than fit into a word of a pool
        "wide" => Some(Shape {
            fields: 4,
            packets: 65,
            ..ONE
        }),
        "two" => Some(Shape { cells: 128, ..ONE }),
        "five" => Some(Shape {
            cells: 320,
            stretch: 2,
            ..ONE
        }),
        "few" => Some(Shape {
            objects: 2,
            sharing: true,
            slots: 2,
            ..ONE
        }),
        "shared" => Some(SHARED),
        "apart" => Some(Shape {
            sharing: false,
            ..SHARED
        }),
        "slots" => Some(Shape { slots: 2, ..SHARED }),
        _ => None,
    }
}

/// The index of the word of that name; behind `named` only in the heap `one`. There 11 single words come before 2
/// positions, 64 roots, then a word each time for the one block, four cards, two heads, four entries, 64 identities, 64
/// values, 64 fields, four pools, the word of help and the season.
pub fn index_of(name: &str) -> Option<u32> {
    match name {
        "world" => Some(0),
        "phase" => Some(1),
        "empty" => Some(2),
        "next_block" => Some(4),
        "named" => Some(5),
        "owner" => Some(77),
        "alloc" => Some(78),
        "mark" => Some(79),
        "card" => Some(80),
        "next_card" => Some(81),
        "head" => Some(84),
        "field" => Some(218),
        "deferred" => Some(285),
        number => number.parse::<u32>().ok(),
    }
}
