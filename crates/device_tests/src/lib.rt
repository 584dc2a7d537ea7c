//! Tests of disks, of the backup file, and of the lock table that is kept with it and with a replica.
#![tactic(auto)]

#[cfg(test)]
mod calls;
#[cfg(test)]
mod disks;
#[cfg(test)]
mod files;
#[cfg(test)]
mod locks;
#[cfg(test)]
mod misled;
#[cfg(test)]
mod replicas;
#[cfg(test)]
mod servers;
#[cfg(test)]
mod steps;
