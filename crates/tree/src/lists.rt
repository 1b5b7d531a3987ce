// The list of a node as an iterator over its places.
ghost use Rattle.std.specs.Prelude.{◌≡◌, length};
ghost use Rattle.std.specs.Iterator.{YieldsFirst, item_count};
ghost use Rattle.pool.specs.Read.{chain};
ghost use Rattle.words.specs.Words.{words};
ghost use Rattle.tree.specs.Lists.{rest};

use pool::next;

// What is left of a list: it has no more places than there are links, so that a walk ends on any bytes.
#[derive(Drop)]
pub struct Places<'a> {
    links: &'a [u8],
    place: u32,
    left: usize,
}

// The places of a list, from its first on.
pub fn list(links: &[u8], first: u32) -> Places<'_>
    ensures { rest result ≡ chain (length (words links.now)) (words links.now) first }
{
    Places {
        links,
        place: first,
        left: links.len() / 4,
    }
}

impl Iterator for Places<'_> {
    type Item = u32;

    ghost next_gives = { YieldsFirst rest };

    ghost remaining = { item_count rest };

    fn next(&mut self) -> Option<u32> {
        if self.left == 0 || self.place == 0 {
            return None;
        }
        let place = self.place;
        self.place = next(self.links, place);
        self.left -= 1;
        Some(place)
    }
}
