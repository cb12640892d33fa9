// "Design F is document 000's equation 1 .. with g = 3" (01, "Proved examples"); a unit has one byte.
#![tactic(auto)]

ghost use Rattle.std.specs.Prelude.{◌≡◌};
ghost use Rattle.equation1.specs.F.{F, shelf};

use geometry::Geometry;

pub fn design() -> [u16; 21]
    ensures { result ≡ F }
{
    [
        0, 2, 6, 0, 1, 3, 1, 2, 4, 2, 3, 5, 3, 4, 6, 0, 4, 5, 1, 5, 6,
    ]
}

pub fn geometry_f() -> Geometry
    ensures { result ≡ shelf 3 }
{
    Geometry {
        v: 7,
        k: 3,
        g: 3,
        u: 1,
    }
}
