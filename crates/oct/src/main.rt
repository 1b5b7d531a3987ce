// The octree's command program.
#![tactic(auto)]

use geometry::space::Cube;

fn main(rt: HostRuntime) {
    program::run::<Cube, _, _, _>(&mut rt.stdin(), &mut rt.stdout(), &mut rt.stderr());
}
