// Specifications alone: routes with one answer changed, and how long a route is (specs/Claims.antt).
#![tactic(auto)]
