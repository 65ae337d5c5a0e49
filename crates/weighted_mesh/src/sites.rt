//! Points with weights, and the weighted insphere test.
ghost use Rattle.std.specs.Prelude.{◌≡◌, ◌<◌, All, length};
ghost use Rattle.geo_laws.specs.Delaunay.{point};
ghost use Rattle.point_locate.specs.Place.{AreOn, row_corners};
ghost use Rattle.weighted_mesh.specs.Regular.{weight, corner_weights, is_weighted_outside};
ghost use Rattle.weighted_mesh.specs.Regular.{AreWeightsOf, weighted_lift};
ghost use Rattle.sign_predicates.specs.Weighted.{IsWeight, AreWeights};
ghost use Rattle.weighted_mesh.specs.Sites.{weighted};

use crate::Weights;
use cavity_insert::Lift;
use geo_laws::{Points, Tet, numbers_of};
use point_locate::row_points;
use sign_predicates::{FourWeights, GridPoint, outside_weighted};
use std::marker::Model;

/// A list of points, and a weight for each: a point is lifted by its squared length less its
/// weight. Contracts see the points and the weights.
#[derive(Drop)]
pub(crate) struct Sites<'a> {
    points: &'a Points,
    weights: &'a Weights,
}

impl<'a> Model for Sites<'a> {
    ghost use Rattle.weighted_mesh.specs.Sites.{Weighted};
    ghost use Rattle.weighted_mesh.specs.Regular.{AreWeightsOf as HaveWeights};

    ghost Value = { Weighted };

    ghost view = { λ s. record { points = s.points.now; weights = s.weights.now } };

    ghost invariant = { λ s. HaveWeights s.points.now s.weights.now };
}

impl<'a> Sites<'a> {
    pub(crate) fn new(points: &'a Points, weights: &'a Weights) -> Self
        requires { AreWeightsOf points.now weights.now }
        ensures { result ≡ weighted points.now weights.now }
    {
        Sites { points, weights }
    }
}

impl<'a> Lift for Sites<'a> {
    ghost points = { λ s. s.points };

    ghost heights = { λ s. weighted_lift s.points s.weights };

    fn points(&self) -> &Points {
        self.points
    }

    fn is_outside(&self, row: Tet, number: u32) -> bool {
        is_outside(self.points, self.weights, row, number)
    }
}

/// The point with this number.
fn point_at(points: &Points, i: u32) -> GridPoint
    requires { i < length points.now }
    ensures { result ≡ point points.now i }
{
    points.at(i as usize)
}

/// The weight of the point with this number.
fn weight_at(weights: &Weights, i: u32) -> i64
    requires inside { i < length weights.now }
    requires small { All IsWeight weights.now }
    ensures value { result ≡ weight weights.now i }
    ensures small { IsWeight result }
{
    weights.at(i as usize)
}

/// The weights of a tetrahedron's corners.
fn weights_of(weights: &Weights, row: Tet) -> FourWeights
    requires inside { (row.a < length weights.now) × (row.b < length weights.now)
        × (row.c < length weights.now) × (row.d < length weights.now) }
    requires small { All IsWeight weights.now }
    ensures value { result ≡ corner_weights weights.now row }
    ensures small { AreWeights result }
{
    FourWeights {
        a: weight_at(weights, row.a),
        b: weight_at(weights, row.b),
        c: weight_at(weights, row.c),
        d: weight_at(weights, row.d),
    }
}

/// The weighted insphere test: whether the point with this number is weighted outside of a
/// tetrahedron, ties decided by the numbers.
fn is_outside(points: &Points, weights: &Weights, row: Tet, p: u32) -> bool
    requires on { AreOn points.now (row_corners row) }
    requires inside { p < length points.now }
    requires weights { AreWeightsOf points.now weights.now }
    ensures { result ≡ is_weighted_outside points.now weights.now row p }
{
    outside_weighted(
        row_points(points, row),
        weights_of(weights, row),
        numbers_of(row),
        point_at(points, p),
        weight_at(weights, p),
        p,
    )
}
