//! Inputs of `ask`, and the status and text that each one gives. The texts were computed apart from the program.

/// An input with what it gives.
pub struct Row {
    pub about: &'static str,
    pub input: &'static str,
    pub status: u8,
    pub output: &'static str,
}

pub const ROWS: [Row; 26] = [
    Row {
        about: "ping",
        input: "0000000000000000000000000000010000000000ea30550000000000c0a6ab000000\n",
        status: 0,
        output: "{\"actions\":[{\"account\":\"eosio\",\"bytes\":\"\",\"console\":\"\",\"creator\":0,\"name\":\"ping\",\"ordinal\":1,\"receiver\":\"eosio\",\"return_value\":\"\",\"steps\":1}],\"block_id\":\"00000001a02ff9999db508509f7eaf28d07ca33d8ecce87712bb5d8043b4c5c9\",\"block_num\":1,\"failure\":null,\"id\":\"ed56c81f576f183b712530e3dce000e8263b8faa889c0ee2bacad0e7841cf04b\",\"position\":0,\"steps\":1}\n",
    },
    Row {
        about: "ping without newline",
        input: "0000000000000000000000000000010000000000ea30550000000000c0a6ab000000",
        status: 0,
        output: "{\"actions\":[{\"account\":\"eosio\",\"bytes\":\"\",\"console\":\"\",\"creator\":0,\"name\":\"ping\",\"ordinal\":1,\"receiver\":\"eosio\",\"return_value\":\"\",\"steps\":1}],\"block_id\":\"00000001a02ff9999db508509f7eaf28d07ca33d8ecce87712bb5d8043b4c5c9\",\"block_num\":1,\"failure\":null,\"id\":\"ed56c81f576f183b712530e3dce000e8263b8faa889c0ee2bacad0e7841cf04b\",\"position\":0,\"steps\":1}\n",
    },
    Row {
        about: "ping with a level",
        input: "0000000000000000000000000000010000000000ea30550000000000c0a6ab010000000000ea305500000000a8ed32320000",
        status: 0,
        output: "{\"actions\":[],\"block_id\":\"00000001a02ff9999db508509f7eaf28d07ca33d8ecce87712bb5d8043b4c5c9\",\"block_num\":1,\"failure\":{\"args\":[0],\"code\":2,\"name\":\"HasAuthorization\"},\"id\":\"29ce3a795b8bb1772a27615b734b2d7cada95453524bfd4c9f7968b1a95f0c68\",\"position\":0,\"steps\":0}\n",
    },
    Row {
        about: "an account that isn't there",
        input: "00000000000000000000000000000100a6823403ea30550000000000c0a6ab000000",
        status: 0,
        output: "{\"actions\":[],\"block_id\":\"00000001a02ff9999db508509f7eaf28d07ca33d8ecce87712bb5d8043b4c5c9\",\"block_num\":1,\"failure\":{\"args\":[\"eosio.token\"],\"code\":3,\"name\":\"UnknownAccount\"},\"id\":\"a16c644436cdb2c0476acd0bb1cebcef1b69bee03e32712ff7570245afdb83b5\",\"position\":0,\"steps\":0}\n",
    },
    Row {
        about: "the account before the level",
        input: "00000000000000000000000000000200a6823403ea30550000000000c0a6ab00000000000000ea30550000000000c0a6ab010000000000ea305500000000a8ed32320000",
        status: 0,
        output: "{\"actions\":[],\"block_id\":\"00000001a02ff9999db508509f7eaf28d07ca33d8ecce87712bb5d8043b4c5c9\",\"block_num\":1,\"failure\":{\"args\":[1],\"code\":2,\"name\":\"HasAuthorization\"},\"id\":\"06df779b772eb7c98553e98298de0b7cbe50c66639f08c148ccf10a85bfb90c6\",\"position\":0,\"steps\":0}\n",
    },
    Row {
        about: "no action",
        input: "00000000000000000000000000000000",
        status: 0,
        output: "{\"actions\":[],\"block_id\":\"00000001a02ff9999db508509f7eaf28d07ca33d8ecce87712bb5d8043b4c5c9\",\"block_num\":1,\"failure\":{\"args\":[],\"code\":1,\"name\":\"NoAction\"},\"id\":\"374708fff7719dd5979ec875d56cd2286f6d3cf7ec317a3b25632aab28ec37bb\",\"position\":0,\"steps\":0}\n",
    },
    Row {
        about: "a native action",
        input: "0000000000000000000000000000010000000000ea305500000040258ab2c2000000",
        status: 0,
        output: "{\"actions\":[{\"account\":\"eosio\",\"bytes\":\"\",\"console\":\"\",\"creator\":0,\"name\":\"setcode\",\"ordinal\":1,\"receiver\":\"eosio\",\"return_value\":\"\",\"steps\":1}],\"block_id\":\"00000001a02ff9999db508509f7eaf28d07ca33d8ecce87712bb5d8043b4c5c9\",\"block_num\":1,\"failure\":{\"args\":[\"setcode\"],\"code\":5,\"name\":\"WriteRefused\"},\"id\":\"e5eaa9e643b354663a0c8d40354f223bdbf27e594c3efd0eb6a03bac07bc20db\",\"position\":0,\"steps\":1}\n",
    },
    Row {
        about: "a native action between two",
        input: "0000000000000000000000000000030000000000ea30550000000000c0a6ab000201ff0000000000ea30550000002d6b03a78b00000000000000ea30550000000000c0a6ab000000",
        status: 0,
        output: "{\"actions\":[{\"account\":\"eosio\",\"bytes\":\"01ff\",\"console\":\"\",\"creator\":0,\"name\":\"ping\",\"ordinal\":1,\"receiver\":\"eosio\",\"return_value\":\"\",\"steps\":1},{\"account\":\"eosio\",\"bytes\":\"\",\"console\":\"\",\"creator\":0,\"name\":\"linkauth\",\"ordinal\":2,\"receiver\":\"eosio\",\"return_value\":\"\",\"steps\":1}],\"block_id\":\"00000001a02ff9999db508509f7eaf28d07ca33d8ecce87712bb5d8043b4c5c9\",\"block_num\":1,\"failure\":{\"args\":[\"linkauth\"],\"code\":5,\"name\":\"WriteRefused\"},\"id\":\"efc4f7d60d5bdba73d91181e4312553492c188f263fdd917c78d5bc78b4c4028\",\"position\":0,\"steps\":2}\n",
    },
    Row {
        about: "two actions",
        input: "0000000000000000000000000000020000000000ea30550000000000c0a6ab000201ff0000000000ea30550000000000c026ad000000",
        status: 0,
        output: "{\"actions\":[{\"account\":\"eosio\",\"bytes\":\"01ff\",\"console\":\"\",\"creator\":0,\"name\":\"ping\",\"ordinal\":1,\"receiver\":\"eosio\",\"return_value\":\"\",\"steps\":1},{\"account\":\"eosio\",\"bytes\":\"\",\"console\":\"\",\"creator\":0,\"name\":\"pong\",\"ordinal\":2,\"receiver\":\"eosio\",\"return_value\":\"\",\"steps\":1}],\"block_id\":\"00000001a02ff9999db508509f7eaf28d07ca33d8ecce87712bb5d8043b4c5c9\",\"block_num\":1,\"failure\":null,\"id\":\"629b1dc5fe0eb9040cfc80115fbc66e66064c777143d605183cce6d89aba2f09\",\"position\":0,\"steps\":2}\n",
    },
    Row {
        about: "context-free actions",
        input: "00000000000000000000000000010000000000ea30550000000000c0a6ab0000010000000000ea30550000000000c0a6ab000000",
        status: 0,
        output: "{\"actions\":[],\"block_id\":\"00000001a02ff9999db508509f7eaf28d07ca33d8ecce87712bb5d8043b4c5c9\",\"block_num\":1,\"failure\":{\"args\":[\"context_free_actions\"],\"code\":4,\"name\":\"Unsupported\"},\"id\":\"42c4a57e67244aa9c93f528f225b2685da310c3ee35908b3798638a1b47975f1\",\"position\":0,\"steps\":0}\n",
    },
    Row {
        about: "a delay",
        input: "0000000000000000000000000500010000000000ea30550000000000c0a6ab000000",
        status: 0,
        output: "{\"actions\":[],\"block_id\":\"00000001a02ff9999db508509f7eaf28d07ca33d8ecce87712bb5d8043b4c5c9\",\"block_num\":1,\"failure\":{\"args\":[\"delay_sec\"],\"code\":4,\"name\":\"Unsupported\"},\"id\":\"09534eddb54d850eaacc36ad8a70321d1d6b9f4f58156e3959e28e1271828d24\",\"position\":0,\"steps\":0}\n",
    },
    Row {
        about: "an extension",
        input: "0000000000000000000000000000010000000000ea30550000000000c0a6ab000001000000",
        status: 0,
        output: "{\"actions\":[],\"block_id\":\"00000001a02ff9999db508509f7eaf28d07ca33d8ecce87712bb5d8043b4c5c9\",\"block_num\":1,\"failure\":{\"args\":[\"extensions\"],\"code\":4,\"name\":\"Unsupported\"},\"id\":\"cb6c592f48bb032d8d3366e24bde127d56d33b7ab232c94c6fa2bf626f656213\",\"position\":0,\"steps\":0}\n",
    },
    Row {
        about: "an extension without actions",
        input: "00000000000000000000000000000001000000",
        status: 0,
        output: "{\"actions\":[],\"block_id\":\"00000001a02ff9999db508509f7eaf28d07ca33d8ecce87712bb5d8043b4c5c9\",\"block_num\":1,\"failure\":{\"args\":[],\"code\":1,\"name\":\"NoAction\"},\"id\":\"7fb4b5717954cb1f22603fe168d2fcf32388f9580545166441f1e0de18dbf6c1\",\"position\":0,\"steps\":0}\n",
    },
    Row {
        about: "upper-case digits",
        input: "0000000000000000000000000000010000000000EA30550000000000C0A6AB000000",
        status: 0,
        output: "{\"actions\":[{\"account\":\"eosio\",\"bytes\":\"\",\"console\":\"\",\"creator\":0,\"name\":\"ping\",\"ordinal\":1,\"receiver\":\"eosio\",\"return_value\":\"\",\"steps\":1}],\"block_id\":\"00000001a02ff9999db508509f7eaf28d07ca33d8ecce87712bb5d8043b4c5c9\",\"block_num\":1,\"failure\":null,\"id\":\"ed56c81f576f183b712530e3dce000e8263b8faa889c0ee2bacad0e7841cf04b\",\"position\":0,\"steps\":1}\n",
    },
    Row {
        about: "a byte too many",
        input: "0000000000000000000000000000010000000000ea30550000000000c0a6ab00000000",
        status: 3,
        output: "input 34 trailing\n",
    },
    Row {
        about: "a long varuint",
        input: "000000000000000000008000000000010000000000ea30550000000000c0a6ab000000",
        status: 3,
        output: "input 10 varuint\n",
    },
    Row {
        about: "empty",
        input: "",
        status: 3,
        output: "input 0 short\n",
    },
    Row {
        about: "one digit",
        input: "0",
        status: 3,
        output: "input 1 hex\n",
    },
    Row {
        about: "an odd line",
        input: "0000000000000000000000000000010000000000ea30550000000000c0a6ab00000",
        status: 3,
        output: "input 67 hex\n",
    },
    Row {
        about: "no hex digit",
        input: "0g00000000000000000000000000010000000000ea30550000000000c0a6ab000000",
        status: 3,
        output: "input 1 hex\n",
    },
    Row {
        about: "no hex digit, and odd",
        input: "0g0",
        status: 3,
        output: "input 3 hex\n",
    },
    Row {
        about: "a byte missing",
        input: "0000000000000000000000000000010000000000ea30550000000000c0a6ab0000",
        status: 3,
        output: "input 33 short\n",
    },
    Row {
        about: "more after the newline",
        input: "0000000000000000000000000000010000000000ea30550000000000c0a6ab000000\n\n",
        status: 3,
        output: "input 69 more\n",
    },
    Row {
        about: "more after a short line",
        input: "00\nx",
        status: 3,
        output: "input 0 short\n",
    },
    Row {
        about: "more after a hex fault",
        input: "zz\nx",
        status: 3,
        output: "input 0 hex\n",
    },
    Row {
        about: "more after the newline, on an empty line",
        input: "\nx",
        status: 3,
        output: "input 0 short\n",
    },
];
