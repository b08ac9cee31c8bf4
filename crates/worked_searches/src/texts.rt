//! What `classes` answers of small lists of facts about texts.
ghost use Rattle.std.specs.Prelude.{◌≡◌, true};

use lint_base::Str;
use text_classes::{Classed, TextEnd, TextFact, classes};

fn same(left: TextEnd, right: TextEnd) -> TextFact
    ensures { result ≡ record { left = left; right = right; equal = true } }
{
    TextFact {
        left,
        right,
        equal: true,
    }
}

#[test]
fn labels_where_texts_differ(rt: HostRuntime) {
    let a = Str::from_str(rt.alloc(), "A").expect(&rt, "memory");
    let b = Str::from_str(rt.alloc(), "B").expect(&rt, "memory");
    let facts = [
        same(TextEnd::Var(0), TextEnd::Text(a)),
        same(TextEnd::Var(1), TextEnd::Text(b)),
    ];
    match classes(rt.alloc(), 2, &facts).expect(&rt, "memory") {
        Classed::Labels { labels, texts } => {
            assert_eq!(rt; labels.as_slice(), [0, 1].as_slice());
            let names = texts.as_slice().iter().map(|text| text.as_str() == "A");
            assert_eq!(rt; names.filter(|is_a| *is_a).count(), 1);
        }
        Classed::Path { .. } => assert!(rt; false, "a path between texts that differ"),
    }
}

#[test]
fn path_where_they_are_one(rt: HostRuntime) {
    let a = Str::from_str(rt.alloc(), "A").expect(&rt, "memory");
    let b = Str::from_str(rt.alloc(), "B").expect(&rt, "memory");
    let facts = [
        same(TextEnd::Var(0), TextEnd::Text(a)),
        same(TextEnd::Var(1), TextEnd::Text(b)),
        same(TextEnd::Var(0), TextEnd::Var(1)),
    ];
    match classes(rt.alloc(), 2, &facts).expect(&rt, "memory") {
        Classed::Labels { .. } => assert!(rt; false, "labels where two texts are one"),
        Classed::Path { last, facts } => {
            assert!(rt; last.is_none());
            assert_eq!(rt; facts.as_slice(), [0, 2, 1].as_slice());
        }
    }
}
