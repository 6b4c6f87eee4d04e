// Whether a text matches a pattern: from the left, and after a failure once more from the last
// wildcard, one character later. Earlier wildcards never need to take more.
ghost use Rattle.std.specs.Prelude.{◌≡◌, ◌↔◌, ◌∷◌, [], IsTrue, MatchOption, map};
ghost use Rattle.std.specs.List.{list_all};
ghost use Rattle.std.specs.Str.{chars};
ghost use Rattle.cedar_language.specs.Pattern.{Matches};
ghost use Rattle.cedar_literals.specs.Patterns.{elem_of};
ghost use Rattle.cedar_literals.specs.Matching as matching;
ghost use Rattle.cedar_literals.specs.Matching.{chars_at, MatchesAt, HasCome, TurnsTo};

use crate::patterns::PatternElem;

// What is left of a pattern and of a text.
#[derive(Clone, Copy)]
struct Place<'a> {
    elems: &'a [PatternElem],
    rest: &'a str,
}

// Where a search stands, and where it began behind the last wildcard.
#[derive(Clone, Copy)]
struct Search<'a> {
    at: Place<'a>,
    start: Option<Place<'a>>,
}

// Whether the text matches the elements. At most n * (m + 1) turns, for n characters and m elements.
pub(crate) fn wildcard_match(elems: &[PatternElem], text: &str) -> bool
    ensures { IsTrue result ↔ Matches (map elem_of elems.now) (chars text.now) }
{
    let at = Place { elems, rest: text };
    let mut search = Search { at, start: None };
    'look: while let Some((c, rest)) = first_char(search.at.rest) {
        let Some(next) = search.turn(c, rest) else {
            return false;
        };
        search = next;
    }
    are_wildcards(search.at.elems)
}

impl<'a> Search<'a> {
    // The search after a look at the next character, `c`; none where nothing can match.
    fn turn(self, c: char, rest: &'a str) -> Option<Search<'a>>
        requires come { HasCome self.start self.at }
        requires next { chars_at self.at ≡ c ∷ chars rest.now }
        ensures { TurnsTo self.entry result }
    {
        let Some((elem, elems)) = self.at.elems.split_first() else {
            return self.later();
        };
        match *elem {
            PatternElem::Wildcard => {
                let at = Place {
                    elems,
                    rest: self.at.rest,
                };
                Some(Search {
                    at,
                    start: Some(at),
                })
            }
            PatternElem::Char(expected) if expected == c => {
                let at = Place { elems, rest };
                Some(Search {
                    at,
                    start: self.start,
                })
            }
            PatternElem::Char(_) => self.later(),
        }
    }

    // The search from one character later, where its place matches nothing.
    fn later(self) -> Option<Search<'a>>
        requires come { HasCome self.start self.at }
        requires fails { ¬ (MatchesAt self.at) }
        ensures { TurnsTo self.entry result }
    {
        let start = self.start?;
        let (_, rest) = first_char(start.rest)?;
        let at = Place {
            elems: start.elems,
            rest,
        };
        Some(Search {
            at,
            start: Some(at),
        })
    }
}

// The first character, and what follows it.
fn first_char(text: &str) -> Option<(char, &str)>
    ensures { MatchOption result (chars text.now ≡ []) (λ p. chars text.now ≡ p.0 ∷ chars p.1.now) }
{
    let mut characters = text.chars();
    let first = characters.next()?;
    Some((first, characters.as_str()))
}

// Whether nothing but wildcards is left.
fn are_wildcards(elems: &[PatternElem]) -> bool
    ensures { result ≡ list_all (λ p. matching.is_wildcard (elem_of p)) elems.now }
{
    elems.iter().all(|elem| is_wildcard(*elem))
}

fn is_wildcard(elem: PatternElem) -> bool
    ensures { result ≡ matching.is_wildcard (elem_of elem) }
{
    match elem {
        PatternElem::Char(_) => false,
        PatternElem::Wildcard => true,
    }
}
