// Laws: functions without a body whose contracts say what the definitions give.

pub mod rules;
pub mod spelling;
