//! Tests of the store of files, and of the longest file that is expanded. What is expanded to what, and each fault of
//! it, is shown by the cases `macros`, `conditionals`, `includes`, `pragmas` and `faults_of_directives`.
#![tactic(auto)]

#[cfg(test)]
mod files;
#[cfg(test)]
mod stores;
