//! Scenarios that are read in parts, with any spacing and order. What is read of them is in `vectors/accepted.jsonl`,
//! and the texts at which that gives up are in `vectors/refusals.jsonl`.

use scenario_file::scenario_of;
use std::test::Fail;

/// Inputs before the rounds, each name twice, each list, cabinets before the version, a schedule, and three texts with
/// a master or a schedule twice.
const IN_PARTS: [&str; 8] = [
    "{ \"ticks\" : 5,\n\t\"inputs\" : [ { \"veh\":3 , \"on\":false, \"round\" : 2, \"cabinet\":2 },\r\n {\"ped\":16,\"cabinet\":1,\"r\\u006fund\":1} ],\n \"version\":1, \"cabinets\":[{ },{\"clock\":7,\"base\":\"max8\"}], \"rounds\":2 }\n",
    "{\"inputs\":[{\"cabinet\":1,\"ped\":1,\"round\":1},{\"cabinet\":1,\"ped\":2,\"round\":1}],\"rounds\":9,\"cabinets\":[{}],\"ticks\":1,\"inputs\":[{\"cabinet\":1,\"round\":7,\"ped\":2,\"ped\":4,\"round\":3}],\"rounds\":3,\"version\":1}",
    "{\"faults\":[{\"kind\":\"late\",\"way\":\"up\",\"stream\":\"load\",\"cabinet\":2,\"round\":3}],\"frames\":[{\"hex\":\"0aFf\",\"stream\":\"poll\",\"cabinet\":1,\"round\":2}],\"priority\":[{\"cancel\":7,\"cabinet\":2,\"round\":1},{\"round\":2,\"cabinet\":1,\"number\":1,\"class\":2,\"level\":3,\"phase\":4,\"arrival\":5,\"departure\":6}],\"loads\":[{\"cells\":[[\"unit\",5,60],[\"split\",1,2,3,20]],\"cabinet\":2,\"round\":3}],\"inputs\":[],\"cabinets\":[{},{}],\"rounds\":3,\"ticks\":1,\"version\":1}",
    "{\"cabinets\":[{\"gain\":12000},{}],\"ticks\":1,\"cabinets\":[{\"section\":2,\"cells\":[[\"unit\",5,60],[\"preempt\",8,14,\"0102\"]]},{ },{\"lose\":12000}],\"rounds\":1,\"version\":2}",
    "{\"master\" : { \"schedule\":[ {\"second\":86399 , \"section\":8,\"pattern\" : 255},\n{\"pattern\":1,\"second\":0,\"section\":1} ], \"retries\" : 2,\"clock\":5 },\"version\":1,\"cabinets\":[{}],\"rounds\":1,\"ticks\":1}",
    "{\"master\":{\"schedule\":[{\"pattern\":1,\"second\":0,\"section\":1}]},\"cabinets\":[{}],\"rounds\":1,\"master\":{\"poll_every\":9},\"ticks\":1,\"version\":1}",
    "{\"master\":{\"schedule\":[{\"pattern\":1,\"second\":0,\"section\":1}],\"schedule\":[]},\"cabinets\":[{}],\"rounds\":1,\"ticks\":1,\"version\":1}",
    "{\"master\":{},\"cabinets\":[{}],\"rounds\":1,\"ticks\":1,\"version\":1,\"master\":{\"schedule\":[],\"schedule\":[{\"section\":3,\"pattern\":7,\"second\":60,\"second\":61}]}}",
];

#[test]
fn these_are_read_in_parts(rt: HostRuntime) -> Result<(), Fail> {
    for text in IN_PARTS {
        assert!(rt; scenario_of(rt.alloc(), text.as_bytes()).is_some());
    }
    Ok(())
}
