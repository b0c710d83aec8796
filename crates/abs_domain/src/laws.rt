// The laws of abstract states and of points.
ghost use Rattle.abs_domain.specs.DomainLaws.{OrderLaw, JoinLaw, RankLaw, PointLaw};

/// Abstract states are in order: each is below itself, what is below a state is below all that the state is below, and two that are below
/// each other are one (this project's own, as all laws here). This call does nothing; its contract is the law.
#[tactic(auto, using(crate::proofs::Orders::order_laws))]
pub fn order_law()
    ensures { OrderLaw }
{}

/// The join of two states is their least upper bound. This call does nothing; its contract is the law.
#[tactic(auto, using(crate::proofs::Bounds::join_laws))]
pub fn join_law()
    ensures { JoinLaw }
{}

/// A state that is joined with one that isn't below it loses at least one of the 79 parts and facts that it may say. So it rises 79 times
/// at most. This call does nothing; its contract is the law.
#[tactic(auto, using(crate::proofs::Ranks::rank_laws))]
pub fn rank_law()
    ensures { RankLaw }
{}

/// Points are in a total order, and only a point itself is its equal in it. This call does nothing; its contract is the law.
#[tactic(auto, using(crate::proofs::PointOrders::point_laws))]
pub fn point_law()
    ensures { PointLaw }
{}
