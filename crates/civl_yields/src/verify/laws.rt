//! The order of all static rules.
ghost use Rattle.civl_yields.specs.verify.Admitted.{StaticRulesAreInOrder};

/// All places at which a program breaks a static rule are listed by code, item and statement.
pub fn static_rules_are_in_order()
    ensures { StaticRulesAreInOrder }
{}
