// The quadtree's command program.
#![tactic(auto)]

use geometry::plane::Rectangle;

fn main(rt: HostRuntime) {
    program::run::<Rectangle, _, _, _>(&mut rt.stdin(), &mut rt.stdout(), &mut rt.stderr());
}
